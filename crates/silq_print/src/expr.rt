//! Printing expressions.

ghost use Rattle.std.specs.Prelude.{◌≡◌, ◌<◌, ◌&&◌, true, length};
ghost use Rattle.silq_tree.specs.Arena.{expr_at};
ghost use Rattle.silq_tree.specs.Standing.{expressions_of, scalar_of, place_of};
ghost use Rattle.silq_tree.specs.Children.{AreExprsBelow, HasFirst, place_exprs, scalar_exprs, number_exprs};
ghost use Rattle.silq_grammar.specs.Spelled.{expr_text, scalar_text, place_text, call_text};
ghost use Rattle.silq_print.specs.Ways.{written};
ghost use Rattle.silq_print.specs.Levels.{operand_text, top_level, in_parens_if};
ghost use Rattle.silq_print.specs.Styles.{way_text, chain_text, left_text, written_by, all_by, scalar_by, place_by, call_by, list_text, sound, is_sound, are_sound, is_sound_scalar, is_sound_place, number_of, is_sound_number, number_type_text, index_text, statics_text, truth_word};
ghost use Rattle.silq_print.specs.declared.style.Style.TheVariants.{Given};
ghost use Rattle.silq_print.specs.Puts.{state, Puts};

use crate::depth::{best_way, is_tight};
use crate::level::{Level, goes_on, left_level, level_of, rank, right_level, sign_of, unary_sign};
use crate::printer::Printer;
use crate::style::Style;
use silq_grammar::Terminal;
use silq_io::Sink;
use silq_tree::{BinaryOp, Expr, ExprId, NameId, PlaceNode, Program, ScalarNode, Tree};

/// The level of an expression's outermost sign.
pub(crate) fn top_level(tree: &Tree, e: ExprId) -> Level
    requires { e.number < length tree.now.exprs }
    ensures { result ≡ top_level (expr_at tree.now e) }
{
    match tree.expr(e) {
        Expr::Binary { op, .. } => level_of(*op),
        Expr::Number { .. } => Level::Unary,
        Expr::Truth { .. } => Level::Unary,
        Expr::Pi { .. } => Level::Unary,
        Expr::Place { .. } => Level::Unary,
        Expr::Call { .. } => Level::Unary,
        Expr::Tuple { .. } => Level::Unary,
        Expr::Unary { .. } => Level::Unary,
    }
}

/// The word of a truth value.
fn truth(value: bool) -> Terminal
    ensures { result ≡ truth_word value }
{
    if value {
        Terminal::True
    } else {
        Terminal::False
    }
}

impl<'a, S: Sink> Printer<'a, S> {
    /// Puts an expression.
    #[cycle(expression)]
    #[tactic(auto, using(silq_tree::proofs::Lists::ids))]
    pub(crate) fn expr(&mut self, program: &Program, e: ExprId, style: Style)
        requires { e.number < length program.now.tree.exprs }
        ensures same_sink { self.new.out.ghost_name ≡ self.old.out.ghost_name }
        ensures puts { Puts (is_sound style (expr_at program.now.tree e)) program.now.names (state self.old.failed (S.put_so_far self.old.out.now) (S.faults self.old.out.now)) (state self.new.failed (S.put_so_far self.new.out.now) (S.faults self.new.out.now)) (expr_text (written_by style (expr_at program.now.tree e))) }
    {
        let tight = is_tight(&program.tree, e, style);
        self.written(program, e, tight)
    }

    /// Puts an expression with the fewest parentheses, or tight.
    #[cycle(expression)]
    #[tactic(auto, using(silq_tree::proofs::Lists::ids))]
    fn written(&mut self, program: &Program, e: ExprId, tight: bool)
        requires { e.number < length program.now.tree.exprs }
        ensures same_sink { self.new.out.ghost_name ≡ self.old.out.ghost_name }
        ensures puts { Puts (sound tight (expr_at program.now.tree e)) program.now.names (state self.old.failed (S.put_so_far self.old.out.now) (S.faults self.old.out.now)) (state self.new.failed (S.put_so_far self.new.out.now) (S.faults self.new.out.now)) (expr_text (written tight (expr_at program.now.tree e))) }
    {
        let way = best_way(&program.tree, e, tight);
        self.way(program, e, tight, way)
    }

    /// Puts an expression in parentheses.
    #[cycle(expression)]
    #[tactic(auto, using(silq_tree::proofs::Lists::ids))]
    fn in_parens(&mut self, program: &Program, e: ExprId, tight: bool)
        requires { e.number < length program.now.tree.exprs }
        ensures same_sink { self.new.out.ghost_name ≡ self.old.out.ghost_name }
        ensures puts { Puts (sound tight (expr_at program.now.tree e)) program.now.names (state self.old.failed (S.put_so_far self.old.out.now) (S.faults self.old.out.now)) (state self.new.failed (S.put_so_far self.new.out.now) (S.faults self.new.out.now)) (in_parens_if true (expr_text (written tight (expr_at program.now.tree e)))) }
    {
        self.fixed(&program.names, Terminal::LeftParen);
        self.written(program, e, tight);
        self.fixed(&program.names, Terminal::RightParen);
    }

    /// Puts an operand of this level.
    #[cycle(expression)]
    #[tactic(auto, using(silq_tree::proofs::Lists::ids))]
    fn operand(&mut self, program: &Program, e: ExprId, level: Level, tight: bool)
        requires { e.number < length program.now.tree.exprs }
        ensures same_sink { self.new.out.ghost_name ≡ self.old.out.ghost_name }
        ensures puts { Puts (sound tight (expr_at program.now.tree e)) program.now.names (state self.old.failed (S.put_so_far self.old.out.now) (S.faults self.old.out.now)) (state self.new.failed (S.put_so_far self.new.out.now) (S.faults self.new.out.now)) (operand_text level tight (expr_at program.now.tree e)) }
    {
        if rank(top_level(&program.tree, e)) < rank(level) {
            self.in_parens(program, e, tight)
        } else {
            self.written(program, e, tight)
        }
    }

    /// Puts the left operand of a chain in the way with this number.
    #[cycle(expression)]
    #[tactic(auto, using(silq_tree::proofs::Lists::ids))]
    fn chain(&mut self, program: &Program, e: ExprId, tight: bool, way: u8)
        requires { e.number < length program.now.tree.exprs }
        ensures same_sink { self.new.out.ghost_name ≡ self.old.out.ghost_name }
        ensures puts { Puts (sound tight (expr_at program.now.tree e)) program.now.names (state self.old.failed (S.put_so_far self.old.out.now) (S.faults self.old.out.now)) (state self.new.failed (S.put_so_far self.new.out.now) (S.faults self.new.out.now)) (chain_text tight way (expr_at program.now.tree e)) }
    {
        if way == 0 {
            self.in_parens(program, e, tight)
        } else {
            self.way(program, e, tight, way - 1)
        }
    }

    /// Puts the left operand of a sign.
    #[cycle(expression)]
    #[tactic(auto, using(silq_tree::proofs::Lists::ids))]
    fn left(&mut self, program: &Program, op: BinaryOp, e: ExprId, tight: bool, way: u8)
        requires { e.number < length program.now.tree.exprs }
        ensures same_sink { self.new.out.ghost_name ≡ self.old.out.ghost_name }
        ensures puts { Puts (sound tight (expr_at program.now.tree e)) program.now.names (state self.old.failed (S.put_so_far self.old.out.now) (S.faults self.old.out.now)) (state self.new.failed (S.put_so_far self.new.out.now) (S.faults self.new.out.now)) (left_text op tight way (expr_at program.now.tree e)) }
    {
        if tight && goes_on(op, top_level(&program.tree, e)) {
            self.chain(program, e, tight, way)
        } else {
            self.operand(program, e, left_level(op), tight)
        }
    }

    /// Puts an expression in the way with this number.
    #[cycle(expression)]
    #[tactic(auto, using(silq_tree::proofs::Lists::ids))]
    fn way(&mut self, program: &Program, e: ExprId, tight: bool, way: u8)
        requires { e.number < length program.now.tree.exprs }
        ensures same_sink { self.new.out.ghost_name ≡ self.old.out.ghost_name }
        ensures puts { Puts (sound tight (expr_at program.now.tree e)) program.now.names (state self.old.failed (S.put_so_far self.old.out.now) (S.faults self.old.out.now)) (state self.new.failed (S.put_so_far self.new.out.now) (S.faults self.new.out.now)) (way_text tight way (expr_at program.now.tree e)) }
    {
        let names = &program.names;
        let style = Style::Given { tight };
        match program.tree.expr(e) {
            Expr::Number { value, ty, .. } => {
                self.number(names, value);
                self.number_type(program, *ty, style);
            }
            Expr::Truth { value, .. } => {
                self.fixed(names, truth(*value));
            }
            Expr::Pi { .. } => self.fixed(names, Terminal::Pi),
            Expr::Place { place, .. } => self.place(program, *place, style),
            Expr::Call {
                fun,
                statics,
                args,
                ..
            } => self.call(program, *fun, statics.as_slice(), args.as_slice(), style),
            Expr::Tuple { items, .. } => self.tuple(program, items.as_slice(), style),
            Expr::Unary { op, arg, .. } => {
                self.fixed(names, unary_sign(*op));
                self.operand(program, *arg, Level::Unary, tight);
            }
            Expr::Binary {
                op,
                left,
                right,
                ..
            } => {
                self.left(program, *op, *left, tight, way);
                self.fixed(names, sign_of(*op));
                self.operand(program, *right, right_level(*op), tight);
            }
        }
    }

    /// Puts what stands behind a number.
    #[cycle(expression)]
    #[tactic(auto, using(silq_tree::proofs::Lists::ids))]
    fn number_type(&mut self, program: &Program, ty: Option<ScalarNode>, style: Style)
        requires { AreExprsBelow (length program.now.tree.exprs) (number_exprs ty) }
        ensures same_sink { self.new.out.ghost_name ≡ self.old.out.ghost_name }
        ensures puts { Puts (is_sound_number style (number_of (expr_at program.now.tree) ty)) program.now.names (state self.old.failed (S.put_so_far self.old.out.now) (S.faults self.old.out.now)) (state self.new.failed (S.put_so_far self.new.out.now) (S.faults self.new.out.now)) (number_type_text style (number_of (expr_at program.now.tree) ty)) }
    {
        if let Some(scalar) = ty {
            self.fixed(&program.names, Terminal::Colon);
            self.scalar(program, scalar, style);
        }
    }

    /// Puts a scalar type.
    #[cycle(expression)]
    #[tactic(auto, using(silq_tree::proofs::Lists::ids))]
    pub(crate) fn scalar(&mut self, program: &Program, ty: ScalarNode, style: Style)
        requires { AreExprsBelow (length program.now.tree.exprs) (scalar_exprs ty) }
        ensures same_sink { self.new.out.ghost_name ≡ self.old.out.ghost_name }
        ensures puts { Puts (is_sound_scalar style (scalar_of (expr_at program.now.tree) ty)) program.now.names (state self.old.failed (S.put_so_far self.old.out.now) (S.faults self.old.out.now)) (state self.new.failed (S.put_so_far self.new.out.now) (S.faults self.new.out.now)) (scalar_text (scalar_by style (scalar_of (expr_at program.now.tree) ty))) }
    {
        let names = &program.names;
        match ty {
            ScalarNode::Bit => self.fixed(names, Terminal::Bit),
            ScalarNode::UInt(width) => {
                self.fixed(names, Terminal::UInt);
                self.index(program, width, style);
            }
            ScalarNode::Int(width) => {
                self.fixed(names, Terminal::Int);
                self.index(program, width, style);
            }
        }
    }

    /// Puts an expression in brackets.
    #[cycle(expression)]
    #[tactic(auto, using(silq_tree::proofs::Lists::ids))]
    fn index(&mut self, program: &Program, e: ExprId, style: Style)
        requires { e.number < length program.now.tree.exprs }
        ensures same_sink { self.new.out.ghost_name ≡ self.old.out.ghost_name }
        ensures puts { Puts (is_sound style (expr_at program.now.tree e)) program.now.names (state self.old.failed (S.put_so_far self.old.out.now) (S.faults self.old.out.now)) (state self.new.failed (S.put_so_far self.new.out.now) (S.faults self.new.out.now)) (index_text (written_by style (expr_at program.now.tree e))) }
    {
        self.fixed(&program.names, Terminal::LeftBracket);
        self.expr(program, e, style);
        self.fixed(&program.names, Terminal::RightBracket);
    }

    /// Puts a variable with its indexes.
    #[cycle(expression)]
    #[tactic(auto, using(silq_tree::proofs::Lists::ids))]
    pub(crate) fn place(&mut self, program: &Program, place: PlaceNode, style: Style)
        requires below { AreExprsBelow (length program.now.tree.exprs) (place_exprs place) }
        requires first { HasFirst place }
        ensures same_sink { self.new.out.ghost_name ≡ self.old.out.ghost_name }
        ensures puts { Puts (is_sound_place style (place_of (expr_at program.now.tree) place)) program.now.names (state self.old.failed (S.put_so_far self.old.out.now) (S.faults self.old.out.now)) (state self.new.failed (S.put_so_far self.new.out.now) (S.faults self.new.out.now)) (place_text (place_by style (place_of (expr_at program.now.tree) place))) }
    {
        self.name(&program.names, place.name);
        if let Some(first) = place.first {
            self.index(program, first, style);
            if let Some(second) = place.second {
                self.index(program, second, style);
            }
        }
    }

    /// Puts a call; without static arguments it has no brackets.
    #[cycle(expression)]
    #[tactic(auto, using(silq_tree::proofs::Lists::ids))]
    pub(crate) fn call(
        &mut self,
        program: &Program,
        fun: NameId,
        statics: &[ExprId],
        args: &[ExprId],
        style: Style,
    )
        requires statics { AreExprsBelow (length program.now.tree.exprs) statics.now }
        requires args { AreExprsBelow (length program.now.tree.exprs) args.now }
        ensures same_sink { self.new.out.ghost_name ≡ self.old.out.ghost_name }
        ensures puts { Puts (are_sound style (expressions_of (expr_at program.now.tree) statics.now) && are_sound style (expressions_of (expr_at program.now.tree) args.now)) program.now.names (state self.old.failed (S.put_so_far self.old.out.now) (S.faults self.old.out.now)) (state self.new.failed (S.put_so_far self.new.out.now) (S.faults self.new.out.now)) (call_text (call_by style fun (expressions_of (expr_at program.now.tree) statics.now) (expressions_of (expr_at program.now.tree) args.now))) }
    {
        let names = &program.names;
        self.name(names, fun);
        self.statics(program, statics, style);
        self.fixed(names, Terminal::LeftParen);
        self.list(program, args, style);
        self.fixed(names, Terminal::RightParen);
    }

    /// Puts static arguments in brackets, where there are some.
    #[cycle(expression)]
    #[tactic(auto, using(silq_tree::proofs::Lists::ids))]
    fn statics(&mut self, program: &Program, ids: &[ExprId], style: Style)
        requires { AreExprsBelow (length program.now.tree.exprs) ids.now }
        ensures same_sink { self.new.out.ghost_name ≡ self.old.out.ghost_name }
        ensures puts { Puts (are_sound style (expressions_of (expr_at program.now.tree) ids.now)) program.now.names (state self.old.failed (S.put_so_far self.old.out.now) (S.faults self.old.out.now)) (state self.new.failed (S.put_so_far self.new.out.now) (S.faults self.new.out.now)) (statics_text (all_by style (expressions_of (expr_at program.now.tree) ids.now))) }
    {
        if !ids.is_empty() {
            self.fixed(&program.names, Terminal::LeftBracket);
            self.list(program, ids, style);
            self.fixed(&program.names, Terminal::RightBracket);
        }
    }

    /// Puts items in parentheses.
    #[cycle(expression)]
    #[tactic(auto, using(silq_tree::proofs::Lists::ids))]
    fn tuple(&mut self, program: &Program, ids: &[ExprId], style: Style)
        requires { AreExprsBelow (length program.now.tree.exprs) ids.now }
        ensures same_sink { self.new.out.ghost_name ≡ self.old.out.ghost_name }
        ensures puts { Puts (are_sound style (expressions_of (expr_at program.now.tree) ids.now)) program.now.names (state self.old.failed (S.put_so_far self.old.out.now) (S.faults self.old.out.now)) (state self.new.failed (S.put_so_far self.new.out.now) (S.faults self.new.out.now)) (in_parens_if true (list_text (all_by style (expressions_of (expr_at program.now.tree) ids.now)))) }
    {
        self.fixed(&program.names, Terminal::LeftParen);
        self.list(program, ids, style);
        self.fixed(&program.names, Terminal::RightParen);
    }

    /// Puts expressions with commas between them.
    #[cycle(expression)]
    #[tactic(auto, using(silq_tree::proofs::Lists::ids))]
    fn list(&mut self, program: &Program, ids: &[ExprId], style: Style)
        requires { AreExprsBelow (length program.now.tree.exprs) ids.now }
        ensures same_sink { self.new.out.ghost_name ≡ self.old.out.ghost_name }
        ensures puts { Puts (are_sound style (expressions_of (expr_at program.now.tree) ids.now)) program.now.names (state self.old.failed (S.put_so_far self.old.out.now) (S.faults self.old.out.now)) (state self.new.failed (S.put_so_far self.new.out.now) (S.faults self.new.out.now)) (list_text (all_by style (expressions_of (expr_at program.now.tree) ids.now))) }
    {
        let Some((first, rest)) = ids.split_first() else {
            return;
        };
        self.expr(program, *first, style);
        for id in rest {
            self.fixed(&program.names, Terminal::Comma);
            self.expr(program, *id, style);
        }
    }
}
