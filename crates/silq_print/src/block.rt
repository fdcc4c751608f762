//! Printing statements.

ghost use Rattle.std.specs.Prelude.{◌≡◌, ◌+◌, ◌-◌, ◌^◌, ◌<◌, ◌≤◌, ◌&&◌, true, ℕ, List, [], ◌∷◌, ◌++◌, length, option_map};
ghost use Rattle.silq_tree.specs.Arena.{expr_at, stmt_at};
ghost use Rattle.silq_tree.specs.Standing.{place_of, statements_of, otherwise_of};
ghost use Rattle.silq_tree.specs.Children.{AreExprsBelow, AreStmtsBelow, HasFirst, place_exprs, listed, else_stmts};
ghost use Rattle.silq_tree.specs.Syntax as tree;
ghost use Rattle.silq_grammar.specs.Spelled.{stmt_text, stmts_text, choice_text, expr_text, update_sign};
ghost use Rattle.silq_print.specs.Derived.{stmt_in, stmts_in, choice_of, rest_in};
ghost use Rattle.silq_print.specs.Styles.{is_sound};
ghost use Rattle.silq_print.specs.declared.style.Style.TheVariants.{Around};
ghost use Rattle.silq_print.specs.Statements.{rest_text, braces_text, names_list, store_text, spread_text, forget_part, forget_text, phase_text, return_text, loop_head, call_line, is_sound_forget, is_sound_return, is_sound_call, is_sound_store, is_sound_stmt, is_sound_rest, are_sound_stmts};
ghost use Rattle.silq_print.specs.Puts.{state, Puts};

use crate::printer::Printer;
use crate::style::Style;
use silq_grammar::Terminal;
use silq_io::Sink;
use silq_tree::{Else, Expr, ExprId, NameId, PlaceNode, Program, Stmt, StmtId, UpdateOp};

/// The sign of an update.
fn update_sign(op: UpdateOp) -> Terminal
    ensures { result ≡ update_sign op }
{
    match op {
        UpdateOp::Add => Terminal::AddTo,
        UpdateOp::Sub => Terminal::SubtractFrom,
        UpdateOp::Xor => Terminal::XorTo,
    }
}

impl<'a, S: Sink> Printer<'a, S> {
    /// Puts a sign between a variable and its value.
    fn store(
        &mut self,
        program: &Program,
        target: PlaceNode,
        sign: Terminal,
        value: ExprId,
        nest: u64,
    )
        requires below { AreExprsBelow (length program.now.tree.exprs) (place_exprs target) }
        requires first { HasFirst target }
        requires value { value.number < length program.now.tree.exprs }
        requires room { nest + 1 < 2 ^ 40 }
        ensures same_sink { self.new.out.ghost_name ≡ self.old.out.ghost_name }
        ensures puts { Puts (is_sound_store nest (place_of (expr_at program.now.tree) target) (expr_at program.now.tree value)) program.now.names (state self.old.failed (S.put_so_far self.old.out.now) (S.faults self.old.out.now)) (state self.new.failed (S.put_so_far self.new.out.now) (S.faults self.new.out.now)) (store_text nest (place_of (expr_at program.now.tree) target) sign (expr_at program.now.tree value)) }
    {
        self.place(program, target, Style::Around { nest: 1 + nest });
        self.fixed(&program.names, sign);
        self.expr(program, value, Style::Around { nest });
        self.fixed(&program.names, Terminal::Semicolon);
    }

    /// Puts names with commas between them.
    fn name_list(&mut self, program: &Program, ids: &[NameId])
        ensures same_sink { self.new.out.ghost_name ≡ self.old.out.ghost_name }
        ensures puts { Puts (true) program.now.names (state self.old.failed (S.put_so_far self.old.out.now) (S.faults self.old.out.now)) (state self.new.failed (S.put_so_far self.new.out.now) (S.faults self.new.out.now)) (names_list ids.now) }
    {
        let Some((first, rest)) = ids.split_first() else {
            return;
        };
        self.name(&program.names, *first);
        for id in rest {
            self.fixed(&program.names, Terminal::Comma);
            self.name(&program.names, *id);
        }
    }

    /// Puts a tuple of names, and its value.
    fn spread(&mut self, program: &Program, ids: &[NameId], value: ExprId, nest: u64)
        requires value { value.number < length program.now.tree.exprs }
        ensures same_sink { self.new.out.ghost_name ≡ self.old.out.ghost_name }
        ensures puts { Puts (is_sound (Around nest) (expr_at program.now.tree value)) program.now.names (state self.old.failed (S.put_so_far self.old.out.now) (S.faults self.old.out.now)) (state self.new.failed (S.put_so_far self.new.out.now) (S.faults self.new.out.now)) (spread_text nest ids.now (expr_at program.now.tree value)) }
    {
        let names = &program.names;
        self.fixed(names, Terminal::LeftParen);
        self.name_list(program, ids);
        self.fixed(names, Terminal::RightParen);
        self.fixed(names, Terminal::Becomes);
        self.expr(program, value, Style::Around { nest });
        self.fixed(names, Terminal::Semicolon);
    }

    /// Puts a forget, with its value where it has one.
    fn forget(&mut self, program: &Program, name: NameId, value: Option<ExprId>, nest: u64)
        requires below { AreExprsBelow (length program.now.tree.exprs) (listed value) }
        requires room { nest + 1 < 2 ^ 40 }
        ensures same_sink { self.new.out.ghost_name ≡ self.old.out.ghost_name }
        ensures puts { Puts (is_sound_forget nest (option_map (expr_at program.now.tree) value)) program.now.names (state self.old.failed (S.put_so_far self.old.out.now) (S.faults self.old.out.now)) (state self.new.failed (S.put_so_far self.new.out.now) (S.faults self.new.out.now)) (forget_text nest name (option_map (expr_at program.now.tree) value)) }
    {
        let names = &program.names;
        self.fixed(names, Terminal::Forget);
        self.fixed(names, Terminal::LeftParen);
        self.name(names, name);
        self.forget_value(program, value, nest);
        self.fixed(names, Terminal::RightParen);
        self.fixed(names, Terminal::Semicolon);
    }

    /// Puts the value of a forget, where it has one.
    fn forget_value(&mut self, program: &Program, value: Option<ExprId>, nest: u64)
        requires below { AreExprsBelow (length program.now.tree.exprs) (listed value) }
        requires room { nest + 1 < 2 ^ 40 }
        ensures same_sink { self.new.out.ghost_name ≡ self.old.out.ghost_name }
        ensures puts { Puts (is_sound_forget nest (option_map (expr_at program.now.tree) value)) program.now.names (state self.old.failed (S.put_so_far self.old.out.now) (S.faults self.old.out.now)) (state self.new.failed (S.put_so_far self.new.out.now) (S.faults self.new.out.now)) (forget_part nest (option_map (expr_at program.now.tree) value)) }
    {
        if let Some(e) = value {
            self.fixed(&program.names, Terminal::Is);
            self.expr(program, e, Style::Around { nest: 1 + nest });
        }
    }

    /// Puts a phase.
    fn phase(&mut self, program: &Program, angle: ExprId, nest: u64)
        requires angle { angle.number < length program.now.tree.exprs }
        requires room { nest + 1 < 2 ^ 40 }
        ensures same_sink { self.new.out.ghost_name ≡ self.old.out.ghost_name }
        ensures puts { Puts (is_sound (Around (1 + nest)) (expr_at program.now.tree angle)) program.now.names (state self.old.failed (S.put_so_far self.old.out.now) (S.faults self.old.out.now)) (state self.new.failed (S.put_so_far self.new.out.now) (S.faults self.new.out.now)) (phase_text nest (expr_at program.now.tree angle)) }
    {
        let names = &program.names;
        self.fixed(names, Terminal::Phase);
        self.fixed(names, Terminal::LeftParen);
        self.expr(program, angle, Style::Around { nest: 1 + nest });
        self.fixed(names, Terminal::RightParen);
        self.fixed(names, Terminal::Semicolon);
    }

    /// Puts a return, with its value where it has one.
    fn return_value(&mut self, program: &Program, value: Option<ExprId>, nest: u64)
        requires below { AreExprsBelow (length program.now.tree.exprs) (listed value) }
        ensures same_sink { self.new.out.ghost_name ≡ self.old.out.ghost_name }
        ensures puts { Puts (is_sound_return nest (option_map (expr_at program.now.tree) value)) program.now.names (state self.old.failed (S.put_so_far self.old.out.now) (S.faults self.old.out.now)) (state self.new.failed (S.put_so_far self.new.out.now) (S.faults self.new.out.now)) (return_text nest (option_map (expr_at program.now.tree) value)) }
    {
        self.fixed(&program.names, Terminal::Return);
        if let Some(e) = value {
            self.expr(program, e, Style::Around { nest });
        }
        self.fixed(&program.names, Terminal::Semicolon);
    }

    /// Puts a call that stands alone; there is nothing else that does.
    fn call_alone(&mut self, program: &Program, call: ExprId, nest: u64)
        requires call { call.number < length program.now.tree.exprs }
        requires room { nest + 1 < 2 ^ 40 }
        ensures same_sink { self.new.out.ghost_name ≡ self.old.out.ghost_name }
        ensures puts { Puts (is_sound_call nest (expr_at program.now.tree call)) program.now.names (state self.old.failed (S.put_so_far self.old.out.now) (S.faults self.old.out.now)) (state self.new.failed (S.put_so_far self.new.out.now) (S.faults self.new.out.now)) (call_line nest (expr_at program.now.tree call)) }
    {
        if let Expr::Call {
            fun,
            statics,
            args,
            ..
        } = program.tree.expr(call)
        {
            let style = Style::Around { nest: 1 + nest };
            self.call(program, *fun, statics.as_slice(), args.as_slice(), style);
            self.fixed(&program.names, Terminal::Semicolon);
        }
    }

    /// Puts the head of a loop, up to its block.
    fn loop_head(&mut self, program: &Program, name: NameId, low: ExprId, high: ExprId, nest: u64)
        requires low { low.number < length program.now.tree.exprs }
        requires high { high.number < length program.now.tree.exprs }
        requires room { nest + 1 < 2 ^ 40 }
        ensures same_sink { self.new.out.ghost_name ≡ self.old.out.ghost_name }
        ensures puts { Puts (is_sound (Around (1 + nest)) (expr_at program.now.tree low) && is_sound (Around (1 + nest)) (expr_at program.now.tree high)) program.now.names (state self.old.failed (S.put_so_far self.old.out.now) (S.faults self.old.out.now)) (state self.new.failed (S.put_so_far self.new.out.now) (S.faults self.new.out.now)) (loop_head nest name (expr_at program.now.tree low) (expr_at program.now.tree high)) }
    {
        let names = &program.names;
        let style = Style::Around { nest: 1 + nest };
        self.fixed(names, Terminal::For);
        self.name(names, name);
        self.fixed(names, Terminal::In);
        self.fixed(names, Terminal::LeftBracket);
        self.expr(program, low, style);
        self.fixed(names, Terminal::Dots);
        self.expr(program, high, style);
        self.fixed(names, Terminal::RightParen);
    }

    /// Puts a statement, with this nest around.
    #[cycle(statement)]
    #[tactic(auto, using(silq_tree::proofs::Lists::ids))]
    fn stmt(&mut self, program: &Program, s: StmtId, nest: u64)
        requires below { s.number < length program.now.tree.stmts }
        requires room { nest + s.number + 1 < 2 ^ 40 }
        ensures same_sink { self.new.out.ghost_name ≡ self.old.out.ghost_name }
        ensures puts { Puts (is_sound_stmt nest (stmt_at program.now.tree s)) program.now.names (state self.old.failed (S.put_so_far self.old.out.now) (S.faults self.old.out.now)) (state self.new.failed (S.put_so_far self.new.out.now) (S.faults self.new.out.now)) (stmt_text (stmt_in nest (stmt_at program.now.tree s))) }
    {
        match program.tree.stmt(s) {
            Stmt::Assign { target, value, .. } => self.store(
                program,
                *target,
                Terminal::Becomes,
                *value,
                nest,
            ),
            Stmt::Spread { names, value, .. } => self.spread(
                program,
                names.as_slice(),
                *value,
                nest,
            ),
            Stmt::Update {
                target,
                op,
                value,
                ..
            } => self.store(program, *target, update_sign(*op), *value, nest),
            Stmt::Forget { name, value, .. } => self.forget(program, *name, *value, nest),
            Stmt::Phase { angle, .. } => self.phase(program, *angle, nest),
            Stmt::If {
                cond,
                then,
                other,
                ..
            } => {
                self.fixed(&program.names, Terminal::If);
                self.expr(program, *cond, Style::Around { nest });
                self.block(program, then.items.as_slice(), nest);
                self.rest(program, other, nest);
            }
            Stmt::For {
                name,
                low,
                high,
                body,
                ..
            } => {
                self.loop_head(program, *name, *low, *high, nest);
                self.block(program, body.items.as_slice(), nest);
            }
            Stmt::Return { value, .. } => self.return_value(program, *value, nest),
            Stmt::Call { call, .. } => self.call_alone(program, *call, nest),
        }
    }

    /// Puts what stands behind the block of an `if`. An empty block is left out with its `else`.
    #[cycle(statement)]
    #[tactic(auto, using(silq_tree::proofs::Lists::ids))]
    fn rest(&mut self, program: &Program, other: &Else, nest: u64)
        requires below { AreStmtsBelow (length program.now.tree.stmts) (else_stmts other.now) }
        requires room { AreStmtsBelow (2 ^ 40 - 2 - nest) (else_stmts other.now) }
        ensures same_sink { self.new.out.ghost_name ≡ self.old.out.ghost_name }
        ensures puts { Puts (is_sound_rest nest (otherwise_of (expr_at program.now.tree) (stmt_at program.now.tree) other.now)) program.now.names (state self.old.failed (S.put_so_far self.old.out.now) (S.faults self.old.out.now)) (state self.new.failed (S.put_so_far self.new.out.now) (S.faults self.new.out.now)) (rest_text (rest_in nest (otherwise_of (expr_at program.now.tree) (stmt_at program.now.tree) other.now))) }
    {
        match other {
            Else::Block(block) => {
                if block.items.len() > 0 {
                    self.fixed(&program.names, Terminal::Else);
                    self.block(program, block.items.as_slice(), nest);
                }
            }
            Else::Choice(s) => {
                self.fixed(&program.names, Terminal::Else);
                self.stmt(program, *s, 1 + nest);
            }
        }
    }

    /// Puts statements in braces.
    #[cycle(statement)]
    #[tactic(auto, using(silq_tree::proofs::Lists::ids))]
    fn block(&mut self, program: &Program, items: &[StmtId], nest: u64)
        requires below { AreStmtsBelow (length program.now.tree.stmts) items.now }
        requires room { AreStmtsBelow (2 ^ 40 - 2 - nest) items.now }
        ensures same_sink { self.new.out.ghost_name ≡ self.old.out.ghost_name }
        ensures puts { Puts (are_sound_stmts (1 + nest) (statements_of (expr_at program.now.tree) (stmt_at program.now.tree) items.now)) program.now.names (state self.old.failed (S.put_so_far self.old.out.now) (S.faults self.old.out.now)) (state self.new.failed (S.put_so_far self.new.out.now) (S.faults self.new.out.now)) (braces_text nest (statements_of (expr_at program.now.tree) (stmt_at program.now.tree) items.now)) }
    {
        self.fixed(&program.names, Terminal::LeftBrace);
        for item in items {
            self.stmt(program, *item, 1 + nest);
        }
        self.fixed(&program.names, Terminal::RightBrace);
    }

    /// Puts a statement of a function's body.
    fn body_stmt(&mut self, program: &Program, s: StmtId)
        requires { s.number < length program.now.tree.stmts }
        ensures same_sink { self.new.out.ghost_name ≡ self.old.out.ghost_name }
        ensures puts { Puts (is_sound_stmt 1 (stmt_at program.now.tree s)) program.now.names (state self.old.failed (S.put_so_far self.old.out.now) (S.faults self.old.out.now)) (state self.new.failed (S.put_so_far self.new.out.now) (S.faults self.new.out.now)) (stmt_text (stmt_in 1 (stmt_at program.now.tree s))) }
    {
        self.stmt(program, s, 1)
    }

    /// Puts the body of a function.
    #[tactic(auto, using(silq_tree::proofs::Lists::ids))]
    pub(crate) fn body(&mut self, program: &Program, items: &[StmtId])
        requires { AreStmtsBelow (length program.now.tree.stmts) items.now }
        ensures same_sink { self.new.out.ghost_name ≡ self.old.out.ghost_name }
        ensures puts { Puts (are_sound_stmts 1 (statements_of (expr_at program.now.tree) (stmt_at program.now.tree) items.now)) program.now.names (state self.old.failed (S.put_so_far self.old.out.now) (S.faults self.old.out.now)) (state self.new.failed (S.put_so_far self.new.out.now) (S.faults self.new.out.now)) (braces_text 0 (statements_of (expr_at program.now.tree) (stmt_at program.now.tree) items.now)) }
    {
        self.fixed(&program.names, Terminal::LeftBrace);
        for item in items {
            self.body_stmt(program, *item);
        }
        self.fixed(&program.names, Terminal::RightBrace);
    }
}
