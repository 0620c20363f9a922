ghost use Rattle.std.specs.Prelude.{◌≡◌, ◌<◌, ◌≤◌, true, length, map, nat_lt, option_map, is_some, None, IfOk};
ghost use Rattle.mixed_circuit.specs.declared.cause.CircuitCause.TheVariants.{NameUnknown};
ghost use Rattle.mot_base.specs.Limits.{least_parties, most_parties, most_statements};
ghost use Rattle.mixed_language.specs.Circuit.{no_statements, place_of, with_statement};
ghost use Rattle.mixed_circuit.specs.Line.{is_new, operand_of, operands_of};
ghost use Rattle.text_lines.specs.Chain.{or_cause};
ghost use Rattle.mixed_language.specs.Valid.{IsCircuit, IsStatement};
ghost use Rattle.text_lines.specs.Gives.{Gives};

use crate::cause::CircuitCause;
use crate::names::Places;
use mixed_language::{Mixed, NewStatement, Operand};
use mot_base::MAX_STATEMENTS;
use std::alloc::{AllocError, Global};
use std::marker::Model;
use text_lines::{LineError, text_of};

/// A circuit that grows by one statement after another, and the places of its values by their names, which
/// stand in the text that is read.
#[derive(Drop)]
pub struct Builder<'a> {
    circuit: Mixed,
    places: Places<'a>,
}

impl<'a> Model for Builder<'a> {
    ghost use Rattle.std.specs.Prelude.{◌≡◌};
    ghost use Rattle.text_lines.specs.Text.{Text};
    ghost use Rattle.mixed_language.specs.Circuit.{Circuit, place_of};
    ghost use Rattle.mixed_circuit.specs.Names.{place_in};
    ghost use Rattle.mixed_language.specs.Valid.{IsCircuit};

    ghost Value = { Circuit };

    ghost view = { λ b. b.circuit };

    ghost invariant = { λ b. IsCircuit b.circuit
        × ((name : Text) → place_in b.places name ≡ place_of b.circuit.statements name) };
}

impl<'a> Builder<'a> {
    /// The circuit of no statement, whose names are to stand in that text.
    pub fn new(alloc: Global, text: &[u8], parties: u8) -> Builder<'a>
        requires some { least_parties ≤ parties }
        requires most { parties ≤ most_parties }
        ensures { result ≡ no_statements parties }
    {
        Builder {
            circuit: Mixed::new(alloc, parties),
            places: Places::none(alloc, text),
        }
    }

    pub fn parties(&self) -> u8
        ensures value { result ≡ self.now.parties }
        ensures most { result ≤ most_parties }
    {
        self.circuit.parties()
    }

    /// Whether there is room for one statement more.
    pub fn has_room(&self) -> bool
        ensures { result ≡ nat_lt (length self.now.statements) most_statements }
    {
        self.circuit.len() < MAX_STATEMENTS
    }

    /// The circuit that was built.
    pub fn finish(self) -> Mixed
        ensures { result ≡ self.entry }
    {
        self.circuit
    }

    /// Whether a name, if one is given, is no value's.
    pub fn is_new(&self, name: Option<&[u8]>) -> bool
        ensures { result ≡ is_new self.now.statements (option_map (λ name. name.now) name.entry) }
    {
        match name {
            Some(name) => self.place(name).is_none(),
            None => true,
        }
    }

    /// The statement whose value a word names.
    fn place(&self, word: &[u8]) -> Option<u32>
        ensures { result ≡ place_of self.now.statements word.now }
    {
        let places = &self.places;
        let name = text_of(word)?;
        places.get(name)
    }

    /// The value that a word names.
    fn operand(&self, word: &[u8]) -> Option<Operand>
        ensures { result ≡ operand_of self.now.statements word.now }
    {
        let at = self.place(word)?;
        let wire = self.circuit.wire(at)?;
        Some(Operand { at, wire })
    }

    /// The values that words name.
    pub fn operands(
        &self,
        alloc: Global,
        words: &[&[u8]],
    ) -> Result<Vec<Operand>, LineError<CircuitCause>>
        ensures { Gives (λ found. found.items) result (or_cause NameUnknown (operands_of
            self.now.statements (map (λ word. word.now) words.now))) }
    {
        let mut found = Vec::new(alloc);
        for word in words {
            let Some(operand) = self.operand(word) else {
                return Err(LineError::Shows(CircuitCause::NameUnknown));
            };
            found.push(operand)?;
        }
        Ok(found)
    }

    /// The circuit with one statement more.
    pub fn with_statement(
        self,
        alloc: Global,
        said: NewStatement<'a>,
    ) -> Result<Builder<'a>, AllocError>
        requires few { length self.statements < most_statements }
        requires statement { IsStatement self.parties self.statements said }
        ensures { IfOk result (λ b. b ≡ with_statement self.entry said.entry) }
    {
        if said.wire.is_some() {
            self.with_value(alloc, said)
        } else {
            self.with_output(alloc, said)
        }
    }

    /// The circuit with one statement more, which gives a value.
    fn with_value(self, alloc: Global, said: NewStatement<'a>) -> Result<Builder<'a>, AllocError>
        requires few { length self.statements < most_statements }
        requires statement { IsStatement self.parties self.statements said }
        requires value { is_some said.wire ≡ true }
        ensures { IfOk result (λ b. b ≡ with_statement self.entry said.entry) }
    {
        let Builder { circuit, places } = self;
        let places = places.with(said.name, circuit.len())?;
        let circuit = circuit.with_statement(alloc, said)?;
        Ok(Builder { circuit, places })
    }

    /// The circuit with one statement more, which gives no value.
    fn with_output(self, alloc: Global, said: NewStatement<'a>) -> Result<Builder<'a>, AllocError>
        requires few { length self.statements < most_statements }
        requires statement { IsStatement self.parties self.statements said }
        requires no_value { said.wire ≡ None }
        ensures { IfOk result (λ b. b ≡ with_statement self.entry said.entry) }
    {
        let Builder { circuit, places } = self;
        let circuit = circuit.with_statement(alloc, said)?;
        Ok(Builder { circuit, places })
    }
}
