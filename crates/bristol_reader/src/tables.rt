ghost use Rattle.std.specs.Prelude.{◌≡◌, ◌≤◌, Bool, List, None, IfOk};
ghost use Rattle.mot_base.specs.Limits.{least_parties, most_parties};
ghost use Rattle.circuit_tables.specs.Table.{AreNamedApart};
ghost use Rattle.circuit_tables.specs.Values.{HaveWidths};
ghost use Rattle.bristol_reader.specs.Table.{inputs_of, outputs_of, HaveInputWidths};

use crate::circuit::Bristol;
use circuit_tables::{InputTable, OutputTable, Receiver};
use mot_base::{NoMemory, Party};
use std::alloc::Global;

impl Bristol {
    /// The input values in order, for so many parties: value `i` is named `in` and `i`, and belongs to party `i` mod
    /// the number of parties.
    pub fn inputs(&self, alloc: Global, parties: u8) -> Result<InputTable, NoMemory>
        requires some { least_parties ≤ parties }
        requires most { parties ≤ most_parties }
        ensures value { IfOk result (λ table. table ≡ inputs_of parties self.now) }
        ensures apart { IfOk result (λ table. AreNamedApart table) }
        ensures widths { IfOk result (λ table.
            (v : List (List Bool)) → HaveWidths None table v → HaveInputWidths self.now v) }
    {
        let widths = self.input_widths();
        let mut table = InputTable::new(alloc);
        for at in 0..widths.len() {
            let name = format!(in alloc; "in{at}")?;
            let party = Party((at % u32::from(parties)) as u8);
            table.push(name.as_str(), party, widths.width(at))?;
        }
        Ok(table)
    }

    /// The output values in order, all of them to all: value `i` is named `out` and `i`.
    pub fn outputs(&self, alloc: Global) -> Result<OutputTable, NoMemory>
        ensures { IfOk result (λ table. table ≡ outputs_of self.now) }
    {
        let widths = self.output_widths();
        let mut table = OutputTable::new(alloc);
        for at in 0..widths.len() {
            let name = format!(in alloc; "out{at}")?;
            table.push(name.as_str(), Receiver::All, widths.width(at))?;
        }
        Ok(table)
    }
}
