//! A text, item by item.

ghost use Rattle.std.specs.Prelude.{◌≡◌, ◌≢◌, All, Ok, Err, Some, None, OnOk, IfOk, IfErr};
ghost use Rattle.gate_core.specs.Local.{AllBelow, AllDiffer};
ghost use Rattle.gate_core.specs.Meaning.{joined};
ghost use Rattle.qasm_tokens.specs.Taken.{is_at_semicolon, item_of};
ghost use Rattle.qasm_read.specs.declared.fault.QasmFault.TheVariants.{Memory};
ghost use Rattle.qasm_read.specs.Read.{IsSpelled, tokens_of};
ghost use Rattle.qasm_read.specs.Refusals.{first_refusal};
ghost use Rattle.qasm_read.specs.State.{read_form};
ghost use Rattle.qasm_read.specs.Step as spec;
ghost use Rattle.qasm_read.specs.Step.{Reads, after_item, fault_of, refusal_by, refusal_in, spelled, syntax_by};
ghost use Rattle.qasm_read.specs.Text.{reading};
ghost use Rattle.qasm_read.specs.Written.{texts_of};

use crate::circuit::ReadCircuit;
use crate::fault::QasmFault;
use crate::refusal::{Refusal, earlier, syntax};
use crate::refused::refusal_of;
use crate::state::State;
use qasm_tokens::{Ending, ItemReader, Taken};
use silq_io::{LimitKind, OverLimit};
use std::alloc::{AllocError, Global};

/// The most bytes of a text.
const MOST_BYTES: usize = 268_435_456;

/// Whether no Syntax stands in an item that ends so.
fn is_unbroken(ending: Ending) -> bool
    ensures { result ≡ spec.is_unbroken ending }
{
    match ending {
        Ending::Whole => true,
        Ending::TextEnd => true,
        Ending::Syntax(_) => false,
    }
}

/// The refusal of the Syntax in an item that ends so.
fn syntax_of(ending: Ending) -> Option<Refusal>
    ensures { result ≡ first_refusal (syntax_by ending) }
{
    match ending {
        Ending::Whole => None,
        Ending::TextEnd => None,
        Ending::Syntax(at) => Some(syntax(at)),
    }
}

/// Whether an item that ends so is not the last.
fn is_followed(ending: Ending) -> bool
    ensures { result ≡ is_at_semicolon ending }
{
    match ending {
        Ending::Whole => true,
        Ending::TextEnd => false,
        Ending::Syntax(_) => false,
    }
}

impl<'s> State<'s> {
    /// The first refusal of an item that was taken.
    fn first_refusal(&self, alloc: Global, taken: &Taken) -> Result<Option<Refusal>, AllocError>
        requires { All IsSpelled taken.now.tokens.items }
        ensures { IfOk result (λ r. r ≡ refusal_by taken.now.ending self.now (item_of taken.now).tokens) }
    {
        let found = refusal_of(alloc, self, is_unbroken(taken.ending), &taken.tokens)?;
        Ok(earlier(found, syntax_of(taken.ending)))
    }

    /// Does what an item that was taken says, after the comment lines before and in it.
    fn read_item(&mut self, alloc: Global, taken: &Taken<'s>) -> Result<(), QasmFault>
        requires { All IsSpelled taken.now.tokens.items }
        ensures allowed { OnOk result (None ≡ refusal_in self.old taken.now.ending (item_of taken.now)) }
        ensures state { OnOk result (self.new ≡ after_item self.old (item_of taken.now)) }
        ensures refused { IfErr result (λ f. f ≢ Memory → Some f ≡ fault_of (refusal_in self.old taken.now.ending (item_of taken.now))) }
    {
        self.lines(alloc, &taken.lines)?;
        if let Some(refusal) = self.first_refusal(alloc, taken)? {
            return Err(refusal.fault);
        }
        self.apply(alloc, &taken.tokens)?;
        Ok(())
    }

    /// Reads the next item. Whether others follow it. After an error neither the state nor the
    /// reader is of further use.
    fn read_next(&mut self, alloc: Global, reader: &mut ItemReader<'s>) -> Result<bool, QasmFault>
        ensures reads { IfOk result (λ more. Reads more reader.old self.old reader.new self.new) }
        ensures refused { IfErr result (λ f. f ≢ Memory → spelled reader.old self.old ≡ Err f) }
    {
        let taken = reader.take_item(alloc)?;
        self.read_item(alloc, &taken)?;
        Ok(is_followed(taken.ending))
    }

    /// Reads the items, up to the first with a refusal. After an error the state is of no further
    /// use.
    fn read_all(&mut self, alloc: Global, reader: &mut ItemReader<'s>) -> Result<(), QasmFault>
        ensures reads { OnOk result (spelled reader.old self.old ≡ Ok (read_form self.new)) }
        ensures refused { IfErr result (λ f. f ≢ Memory → spelled reader.old self.old ≡ Err f) }
    {
        loop {
            if !self.read_next(alloc, reader)? {
                return Ok(());
            }
        }
    }
}

/// Reads a text within its limit of bytes, or refuses it.
fn read_whole(alloc: Global, text: &str) -> Result<ReadCircuit, QasmFault>
    ensures circuit { IfOk result (λ c. reading text.now ≡ Ok c) }
    ensures refusal { IfErr result (λ f. f ≢ Memory → reading text.now ≡ Err f) }
{
    if text.len() > MOST_BYTES {
        return Err(QasmFault::Limit(OverLimit {
            which: LimitKind::Text,
            count: 268_435_457,
        }));
    }
    let mut reader = ItemReader::new(alloc, text)?;
    let mut state = State::at_start(alloc);
    state.read_all(alloc, &mut reader)?;
    Ok(state.into_read())
}

/// Reads a text: the circuit that it spells, or its first refusal.
pub fn read(alloc: Global, text: &str) -> Result<ReadCircuit, QasmFault>
    ensures circuit { IfOk result (λ c. reading text.now ≡ Ok c) }
    ensures ins { IfOk result (λ c. AllDiffer (joined c.ins) × AllBelow c.circuit.qubits (joined c.ins)) }
    ensures outs { IfOk result (λ c. AllDiffer (joined c.outs) × AllBelow c.circuit.qubits (joined c.outs)) }
    ensures refusal { IfErr result (λ f. f ≢ Memory → reading text.now ≡ Err f) }
{
    let circuit = read_whole(alloc, text)?;
    Ok(circuit)
}
