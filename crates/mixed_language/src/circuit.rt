ghost use Rattle.std.specs.Prelude.{◌≡◌, ◌<◌, ◌≤◌, ◌==◌, length, map, slice_get, option_map, Some, None, IfOk, OnOk, OnErr};
ghost use Rattle.mot_base.specs.Limits.{least_parties, most_parties};

use crate::form::Form;
use circuit_tables::Values;
use mot_base::NoMemory;
use share_types::WireType;
use std::alloc::{AllocError, Global};
use std::marker::Model;

/// One statement of a circuit.
#[derive(Debug, Drop)]
pub(crate) struct Statement {
    pub(crate) name: String,
    pub(crate) wire: Option<WireType>,
    pub(crate) form: Form,
}

impl Model for Statement {
    ghost use Rattle.std.specs.Prelude.{string_bytes};
    ghost use Rattle.mixed_language.specs.Circuit as spec;
    ghost use Rattle.mot_base.specs.Limits.{most_statements};
    ghost use Rattle.mixed_language.specs.Circuit.{shape_of};

    ghost Value = { spec.Statement };

    ghost view = { λ s. record { name = string_bytes s.name; wire = s.wire; shape = shape_of s.form } };
}

/// A statement that is to be added, whose name stands elsewhere.
#[derive(Drop)]
pub struct NewStatement<'a> {
    /// The name of its value, which is empty for an output.
    pub name: &'a str,
    /// How its value is shared, which is none for an output.
    pub wire: Option<WireType>,
    /// What it does.
    pub form: Form,
}

impl<'a> Model for NewStatement<'a> {
    ghost use Rattle.mixed_language.specs.Circuit as spec;
    ghost use Rattle.mixed_language.specs.Circuit.{shape_of};

    ghost Value = { spec.Statement };

    ghost view = { λ s. record { name = s.name.now; wire = s.wire; shape = shape_of s.form } };
}

/// A circuit of words and vectors in all three sharings: its parties and its statements, each of which stands behind those whose values
/// it uses.
#[derive(Debug, Drop)]
pub struct Mixed {
    parties: u8,
    statements: Vec<Statement>,
}

impl Model for Mixed {
    ghost use Rattle.mixed_language.specs.Circuit.{Circuit};
    ghost use Rattle.mixed_language.specs.Valid.{IsCircuit};

    ghost Value = { Circuit };

    ghost view = { λ c. record { parties = c.parties; statements = c.statements.items } };

    ghost invariant = { λ c. IsCircuit (record { parties = c.parties; statements = c.statements.items }) };
}

impl Mixed {
    ghost use Rattle.mot_base.specs.Limits.{most_statements};
    ghost use Rattle.mixed_language.specs.Circuit.{shape_of, no_statements, with_statement};
    ghost use Rattle.mixed_language.specs.Valid.{IsCircuit, IsStatement, AreEarlier};
    ghost use Rattle.mixed_language.specs.Wide.{AllWide};
    ghost use Rattle.share_types.specs.Bits.{number};
    ghost use Rattle.circuit_tables.specs.Values.{HaveWidths};
    ghost use Rattle.mixed_language.specs.Table.{inputs_of};

    /// The circuit of no statement.
    pub fn new(alloc: Global, parties: u8) -> Mixed
        requires some { least_parties ≤ parties }
        requires most { parties ≤ most_parties }
        ensures { result ≡ no_statements parties }
    {
        Mixed {
            parties,
            statements: Vec::new(alloc),
        }
    }

    /// The circuit with one statement more, which may stand behind the others.
    pub fn with_statement(mut self, alloc: Global, new: NewStatement) -> Result<Mixed, AllocError>
        requires few { length self.statements < most_statements }
        requires statement { IsStatement self.parties self.statements new }
        ensures value { IfOk result (λ c. c ≡ with_statement self new.entry) }
        ensures circuit { IfOk result (λ c. IsCircuit c) }
    {
        let statement = statement_of(alloc, new)?;
        self.push(statement)?;
        Ok(self)
    }

    /// Adds a statement at the end.
    fn push(&mut self, statement: Statement) -> Result<(), AllocError>
        requires few { length self.old.statements < most_statements }
        requires statement { IsStatement self.old.parties self.old.statements statement }
        ensures ok { OnOk result (self.new ≡ with_statement self.old statement) }
        ensures circuit { IsCircuit self.new }
        ensures err { OnErr result (self.new ≡ self.old) }
    {
        self.statements.push(statement)?;
        Ok(())
    }

    /// The number of parties, from 2 to 8.
    pub fn parties(&self) -> u8
        ensures value { result ≡ self.now.parties }
        ensures circuit { IsCircuit self.now }
    {
        self.parties
    }

    /// The number of statements, at most 1,048,576.
    pub fn len(&self) -> u32
        ensures value { result ≡ length self.now.statements }
        ensures circuit { IsCircuit self.now }
    {
        self.statements.len() as u32
    }

    /// Whether there is no statement.
    pub fn is_empty(&self) -> bool
        ensures { result ≡ (length self.now.statements == 0) }
    {
        self.statements.is_empty()
    }

    /// The name of a statement's value, which is empty for an output.
    pub fn name(&self, at: u32) -> &str
        requires { at < length self.now.statements }
        ensures { option_map (λ s. s.name) (slice_get self.entry.now.statements at) ≡ Some result.now }
    {
        self.statements[at as usize].name.as_str()
    }

    /// How the value of a statement is shared, which is none exactly for an output.
    pub fn wire(&self, at: u32) -> Option<WireType>
        requires { at < length self.now.statements }
        ensures value { option_map (λ s. s.wire) (slice_get self.now.statements at) ≡ Some result }
        ensures wide { AllWide self.now.statements }
    {
        self.statements[at as usize].wire
    }

    /// What a statement does. Its operands are earlier statements.
    pub fn form(&self, at: u32) -> Form
        requires { at < length self.now.statements }
        ensures value { option_map (λ s.
            s.shape) (slice_get self.now.statements at) ≡ Some (shape_of result) }
        ensures operands { AreEarlier at (shape_of result).operands }
    {
        self.statements[at as usize].form
    }

    /// The number of each input's value, from the values of all inputs.
    pub fn input_numbers(&self, alloc: Global, values: &Values) -> Result<Vec<u64>, NoMemory>
        requires { HaveWidths None (inputs_of self.now.statements) values.now }
        ensures { IfOk result (λ numbers. numbers.items ≡ map number values.now) }
    {
        let _statements = &self.statements;
        values.numbers(alloc)
    }
}

/// The same statement, with a name of its own.
fn statement_of(alloc: Global, new: NewStatement) -> Result<Statement, AllocError>
    ensures { IfOk result (λ s. s ≡ new.entry) }
{
    let name = String::from_str(alloc, new.name)?;
    Ok(Statement {
        name,
        wire: new.wire,
        form: new.form,
    })
}
