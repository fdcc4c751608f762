//! Printing programs.

ghost use Rattle.std.specs.Prelude.{◌≡◌, true, ◌<◌, ◌≤◌, length, OnOk, OnErr};
ghost use Rattle.silq_io.specs.Counts.{Rose};
ghost use Rattle.silq_io.specs.Sinks.{Adds, Breaks};
ghost use Rattle.silq_tree.specs.Arena.{fun_at, program_at};
ghost use Rattle.silq_grammar.specs.Spelled.{function_text, program_text};
ghost use Rattle.silq_print.specs.Derived.{function_in, derived};
ghost use Rattle.silq_print.specs.Headers.{is_sound_function, is_sound_program};
ghost use Rattle.silq_print.specs.Laws.{IsOfText, ReadsBack};
ghost use Rattle.silq_print.specs.Printed.{program_printed};
ghost use Rattle.silq_print.specs.Puts.{state, Puts};

use crate::printer::Printer;
use silq_grammar::Terminal;
use silq_io::{Failed, Sink};
use silq_tree::{FunId, Program};

impl<'a, S: Sink> Printer<'a, S> {
    /// Puts a function.
    fn function(&mut self, program: &Program, id: FunId)
        requires { id.number < length program.now.tree.funs }
        ensures same_sink { self.new.out.ghost_name ≡ self.old.out.ghost_name }
        ensures puts { Puts (is_sound_function (fun_at program.now.tree id)) program.now.names (state self.old.failed (S.put_so_far self.old.out.now) (S.faults self.old.out.now)) (state self.new.failed (S.put_so_far self.new.out.now) (S.faults self.new.out.now)) (function_text (function_in (fun_at program.now.tree id))) }
    {
        let fun = program.tree.fun(id);
        self.fixed(&program.names, Terminal::Def);
        self.name(&program.names, fun.name);
        self.static_params(program, fun.statics.as_slice());
        self.params(program, fun.params.as_slice());
        self.mark(program, fun.mark);
        self.results(program, fun.results.as_slice());
        self.body(program, fun.body.items.as_slice());
    }

    /// Puts the functions of a program.
    fn program(&mut self, program: &Program)
        requires { IsOfText program.now.tree program.now.names program.now.funs }
        ensures same_sink { self.new.out.ghost_name ≡ self.old.out.ghost_name }
        ensures puts { Puts (true) program.now.names (state self.old.failed (S.put_so_far self.old.out.now) (S.faults self.old.out.now)) (state self.new.failed (S.put_so_far self.new.out.now) (S.faults self.new.out.now)) (program_text (derived (program_at program.now.tree program.now.funs))) }
    {
        for id in program.funs.as_slice() {
            self.function(program, *id);
        }
    }
}

/// Puts the text of a program: its tokens, each with one blank behind it, with the fewest parentheses where the nest allows them.
/// Takes no memory. Fails only where the sink's count of faults rose.
pub fn print<S: Sink>(program: &Program, out: &mut S) -> Result<(), Failed>
    requires program { IsOfText program.now.tree program.now.names program.now.funs }
    ensures ok { OnOk result (Adds (S.put_so_far out.old) (S.put_so_far out.new) (program_printed program.now.names (program_at program.now.tree program.now.funs))) }
    ensures count { S.faults out.old ≤ S.faults out.new }
    ensures failed { OnErr result (Rose (S.faults out.old) (S.faults out.new)) }
    ensures broken { OnErr result (Breaks (S.put_so_far out.old) (S.put_so_far out.new) (program_printed program.now.names (program_at program.now.tree program.now.funs))) }
    ensures reads_back { ReadsBack program.now.tree program.now.names program.now.funs (program_printed program.now.names (program_at program.now.tree program.now.funs)) }
{
    let mut printer = Printer::new(out);
    printer.program(program);
    if printer.failed() {
        return Err(Failed);
    }
    Ok(())
}
