//! Printing headers.

ghost use Rattle.std.specs.Prelude.{◌≡◌, ◌+◌, ◌<◌, ◌^◌, ◌-◌, ◌&&◌, true, List, [], ◌∷◌, ◌++◌, length, map, flat_map, option_map};
ghost use Rattle.silq_tree.specs.Arena.{expr_at, stmt_at, fun_at};
ghost use Rattle.silq_tree.specs.Standing.{type_of, param_of};
ghost use Rattle.silq_tree.specs.Children.{AreExprsBelow, type_exprs, param_exprs, listed};
ghost use Rattle.silq_grammar.specs.declared.token.Token.TheVariants.{Fixed};
ghost use Rattle.silq_grammar.specs.declared.token.Terminal.TheVariants as t;
ghost use Rattle.silq_grammar.specs.Spelled.{expr_text, size_text, type_text, param_text, mark_text};
ghost use Rattle.silq_print.specs.Bare.{nowhere};
ghost use Rattle.silq_print.specs.Derived.{expr_in, size_in, type_in, param_in, mark_part};
ghost use Rattle.silq_print.specs.Levels.{in_parens_if};
ghost use Rattle.silq_print.specs.Styles.{is_sound};
ghost use Rattle.silq_print.specs.declared.style.Style.TheVariants.{Around};
ghost use Rattle.silq_print.specs.Headers.{word_if, size_part, is_sound_size, is_sound_part, is_sound_type, params_list, are_sound_params, static_text, statics_list, types_list, are_sound_types};
ghost use Rattle.silq_print.specs.Puts.{state, Puts};

use crate::printer::Printer;
use crate::style::Style;
use silq_grammar::Terminal;
use silq_io::Sink;
use silq_tree::{Expr, ExprId, Mark, NameId, ParamNode, Program, TypeNode};

impl<'a, S: Sink> Printer<'a, S> {
    /// Puts a word or a sign where it is wanted.
    fn word_if(&mut self, program: &Program, wanted: bool, word: Terminal)
        ensures same_sink { self.new.out.ghost_name ≡ self.old.out.ghost_name }
        ensures puts { Puts (true) program.now.names (state self.old.failed (S.put_so_far self.old.out.now) (S.faults self.old.out.now)) (state self.new.failed (S.put_so_far self.new.out.now) (S.faults self.new.out.now)) (word_if wanted word) }
    {
        if wanted {
            self.fixed(&program.names, word);
        }
    }

    /// Puts an expression in parentheses, with this nest around.
    fn paren_size(&mut self, program: &Program, e: ExprId, nest: u64)
        requires below { e.number < length program.now.tree.exprs }
        requires room { nest + 1 < 2 ^ 40 }
        ensures same_sink { self.new.out.ghost_name ≡ self.old.out.ghost_name }
        ensures puts { Puts (is_sound (Around (1 + nest)) (expr_at program.now.tree e)) program.now.names (state self.old.failed (S.put_so_far self.old.out.now) (S.faults self.old.out.now)) (state self.new.failed (S.put_so_far self.new.out.now) (S.faults self.new.out.now)) (Fixed t.Caret nowhere ∷ in_parens_if true (expr_text (expr_in (1 + nest) (expr_at program.now.tree e)))) }
    {
        let names = &program.names;
        self.fixed(names, Terminal::Caret);
        self.fixed(names, Terminal::LeftParen);
        self.expr(program, e, Style::Around { nest: 1 + nest });
        self.fixed(names, Terminal::RightParen);
    }

    /// Puts the length of an array. A number and a name want no parentheses.
    fn size(&mut self, program: &Program, e: ExprId, nest: u64)
        requires below { e.number < length program.now.tree.exprs }
        requires room { nest + 1 < 2 ^ 40 }
        ensures same_sink { self.new.out.ghost_name ≡ self.old.out.ghost_name }
        ensures puts { Puts (is_sound_size nest (expr_at program.now.tree e)) program.now.names (state self.old.failed (S.put_so_far self.old.out.now) (S.faults self.old.out.now)) (state self.new.failed (S.put_so_far self.new.out.now) (S.faults self.new.out.now)) (size_text (size_in nest (expr_at program.now.tree e))) }
    {
        let names = &program.names;
        match program.tree.expr(e) {
            Expr::Number { value, ty, .. } => {
                if ty.is_some() {
                    self.paren_size(program, e, nest);
                } else {
                    self.fixed(names, Terminal::Caret);
                    self.number(names, value);
                }
            }
            Expr::Place { place, .. } => {
                if place.first.is_some() {
                    self.paren_size(program, e, nest);
                } else {
                    self.fixed(names, Terminal::Caret);
                    self.name(names, place.name);
                }
            }
            _ => self.paren_size(program, e, nest),
        }
    }

    /// Puts the length of an array, where it is one.
    fn size_part(&mut self, program: &Program, size: Option<ExprId>, nest: u64)
        requires below { AreExprsBelow (length program.now.tree.exprs) (listed size) }
        requires room { nest + 1 < 2 ^ 40 }
        ensures same_sink { self.new.out.ghost_name ≡ self.old.out.ghost_name }
        ensures puts { Puts (is_sound_part nest (option_map (expr_at program.now.tree) size)) program.now.names (state self.old.failed (S.put_so_far self.old.out.now) (S.faults self.old.out.now)) (state self.new.failed (S.put_so_far self.new.out.now) (S.faults self.new.out.now)) (size_part nest (option_map (expr_at program.now.tree) size)) }
    {
        if let Some(e) = size {
            self.size(program, e, nest);
        }
    }

    /// Puts a type.
    fn written_type(&mut self, program: &Program, ty: TypeNode, nest: u64)
        requires below { AreExprsBelow (length program.now.tree.exprs) (type_exprs ty) }
        requires room { nest + 1 < 2 ^ 40 }
        ensures same_sink { self.new.out.ghost_name ≡ self.old.out.ghost_name }
        ensures puts { Puts (is_sound_type nest (type_of (expr_at program.now.tree) ty)) program.now.names (state self.old.failed (S.put_so_far self.old.out.now) (S.faults self.old.out.now)) (state self.new.failed (S.put_so_far self.new.out.now) (S.faults self.new.out.now)) (type_text (type_in nest (type_of (expr_at program.now.tree) ty))) }
    {
        self.word_if(program, ty.classical, Terminal::Bang);
        self.scalar(program, ty.scalar, Style::Around { nest: 1 + nest });
        self.size_part(program, ty.size, nest);
    }

    /// Puts a parameter.
    fn param(&mut self, program: &Program, param: &ParamNode)
        requires { AreExprsBelow (length program.now.tree.exprs) (param_exprs param.now) }
        ensures same_sink { self.new.out.ghost_name ≡ self.old.out.ghost_name }
        ensures puts { Puts (is_sound_type 1 (type_of (expr_at program.now.tree) param.now.ty)) program.now.names (state self.old.failed (S.put_so_far self.old.out.now) (S.faults self.old.out.now)) (state self.new.failed (S.put_so_far self.new.out.now) (S.faults self.new.out.now)) (param_text (param_in (param_of (expr_at program.now.tree) param.now))) }
    {
        self.word_if(program, param.held, Terminal::Const);
        self.name(&program.names, param.name);
        self.fixed(&program.names, Terminal::Colon);
        self.written_type(program, param.ty, 1);
    }

    /// Puts parameters with commas between them.
    fn param_list(&mut self, program: &Program, params: &[ParamNode])
        requires { AreExprsBelow (length program.now.tree.exprs) (flat_map param_exprs params.now) }
        ensures same_sink { self.new.out.ghost_name ≡ self.old.out.ghost_name }
        ensures puts { Puts (are_sound_params (map (param_of (expr_at program.now.tree)) params.now)) program.now.names (state self.old.failed (S.put_so_far self.old.out.now) (S.faults self.old.out.now)) (state self.new.failed (S.put_so_far self.new.out.now) (S.faults self.new.out.now)) (params_list (map (param_of (expr_at program.now.tree)) params.now)) }
    {
        let Some((first, rest)) = params.split_first() else {
            return;
        };
        self.param(program, first);
        for param in rest {
            self.fixed(&program.names, Terminal::Comma);
            self.param(program, param);
        }
    }

    /// Puts a static parameter.
    fn static_param(&mut self, program: &Program, name: NameId)
        ensures same_sink { self.new.out.ghost_name ≡ self.old.out.ghost_name }
        ensures puts { Puts (true) program.now.names (state self.old.failed (S.put_so_far self.old.out.now) (S.faults self.old.out.now)) (state self.new.failed (S.put_so_far self.new.out.now) (S.faults self.new.out.now)) (static_text name) }
    {
        let names = &program.names;
        self.name(names, name);
        self.fixed(names, Terminal::Colon);
        self.fixed(names, Terminal::Bang);
        self.fixed(names, Terminal::Natural);
    }

    /// Puts static parameters in brackets, where there are some.
    pub(crate) fn static_params(&mut self, program: &Program, ids: &[NameId])
        ensures same_sink { self.new.out.ghost_name ≡ self.old.out.ghost_name }
        ensures puts { Puts (true) program.now.names (state self.old.failed (S.put_so_far self.old.out.now) (S.faults self.old.out.now)) (state self.new.failed (S.put_so_far self.new.out.now) (S.faults self.new.out.now)) (statics_list ids.now) }
    {
        let Some((first, rest)) = ids.split_first() else {
            return;
        };
        self.fixed(&program.names, Terminal::LeftBracket);
        self.static_param(program, *first);
        for id in rest {
            self.fixed(&program.names, Terminal::Comma);
            self.static_param(program, *id);
        }
        self.fixed(&program.names, Terminal::RightBracket);
    }

    /// Puts the types of the results, where there are some.
    pub(crate) fn results(&mut self, program: &Program, types: &[TypeNode])
        requires { AreExprsBelow (length program.now.tree.exprs) (flat_map type_exprs types.now) }
        ensures same_sink { self.new.out.ghost_name ≡ self.old.out.ghost_name }
        ensures puts { Puts (are_sound_types (map (type_of (expr_at program.now.tree)) types.now)) program.now.names (state self.old.failed (S.put_so_far self.old.out.now) (S.faults self.old.out.now)) (state self.new.failed (S.put_so_far self.new.out.now) (S.faults self.new.out.now)) (types_list (map (type_of (expr_at program.now.tree)) types.now)) }
    {
        let Some((first, rest)) = types.split_first() else {
            return;
        };
        self.fixed(&program.names, Terminal::Colon);
        self.written_type(program, *first, 0);
        for ty in rest {
            self.fixed(&program.names, Terminal::Times);
            self.written_type(program, *ty, 0);
        }
    }

    /// Puts a mark, where there is one.
    pub(crate) fn mark(&mut self, program: &Program, mark: Mark)
        ensures same_sink { self.new.out.ghost_name ≡ self.old.out.ghost_name }
        ensures puts { Puts (true) program.now.names (state self.old.failed (S.put_so_far self.old.out.now) (S.faults self.old.out.now)) (state self.new.failed (S.put_so_far self.new.out.now) (S.faults self.new.out.now)) (mark_text (mark_part mark)) }
    {
        match mark {
            Mark::Plain => {}
            Mark::Lifted => self.fixed(&program.names, Terminal::Lifted),
            Mark::Qfree => self.fixed(&program.names, Terminal::Qfree),
            Mark::Mfree => self.fixed(&program.names, Terminal::Mfree),
        }
    }

    /// Puts parameters in parentheses.
    pub(crate) fn params(&mut self, program: &Program, params: &[ParamNode])
        requires { AreExprsBelow (length program.now.tree.exprs) (flat_map param_exprs params.now) }
        ensures same_sink { self.new.out.ghost_name ≡ self.old.out.ghost_name }
        ensures puts { Puts (are_sound_params (map (param_of (expr_at program.now.tree)) params.now)) program.now.names (state self.old.failed (S.put_so_far self.old.out.now) (S.faults self.old.out.now)) (state self.new.failed (S.put_so_far self.new.out.now) (S.faults self.new.out.now)) (in_parens_if true (params_list (map (param_of (expr_at program.now.tree)) params.now))) }
    {
        self.fixed(&program.names, Terminal::LeftParen);
        self.param_list(program, params);
        self.fixed(&program.names, Terminal::RightParen);
    }
}
