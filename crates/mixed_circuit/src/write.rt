ghost use Rattle.std.specs.Prelude.{◌≡◌, ◌<◌, ◌≤◌, ◌++◌, length, slice_get, option_map, OnOk, IfOk, IfSome};
ghost use Rattle.std.specs.Option.{unwrap_or};
ghost use Rattle.std.specs.List.{join_with_byte};
ghost use Rattle.std.specs.Fmt.{decimal};
ghost use Rattle.mixed_circuit.specs.Rows.{row_shape};
ghost use Rattle.mixed_circuit.specs.Written.{letter_word, told_word, operand_word, slot_word, slot_words, places_behind, statement_words, line_of, headers, canonical};
ghost use Rattle.mixed_language.specs.Valid.{AreEarlier};
ghost use Rattle.mixed_circuit.specs.Grammar.{Reads};

use crate::row::{Row, row_of};
use mixed_language::{Mixed, Slot};
use mot_base::{NoMemory, Party};
use share_types::Sharing;
use std::alloc::Global;
use text_lines::{push_number, push_text};

/// The canonical text of a circuit: single spaces, decimal numbers, no blank line, no comment, and a line end behind
/// every line. It reads as that circuit again. It may be longer than the text that `read_mixed` takes.
pub fn write_mixed(alloc: Global, circuit: &Mixed) -> Result<Vec<u8>, NoMemory>
    ensures written { IfOk result (λ text. text.items ≡ canonical circuit.now) }
    ensures reads_back { IfOk result (λ text. Reads text.items circuit.now) }
{
    let mut out = Vec::new(alloc);
    push_headers(alloc, &mut out, circuit.parties())?;
    for at in 0..circuit.len() {
        push_statement(alloc, &mut out, circuit, at)?;
    }
    Ok(out)
}

/// Adds the two header lines at the end.
fn push_headers(alloc: Global, out: &mut Vec<u8>, parties: u8) -> Result<(), NoMemory>
    ensures { OnOk result (out.new.items ≡ out.old.items ++ headers parties) }
{
    push_text(out, b"mixed 1\nparties ")?;
    push_number(alloc, out, u64::from(parties))?;
    push_text(out, b"\n")
}

/// Adds the line of a statement at the end.
fn push_statement(
    alloc: Global,
    out: &mut Vec<u8>,
    circuit: &Mixed,
    at: u32,
) -> Result<(), NoMemory>
    requires { at < length circuit.now.statements }
    ensures { OnOk result (IfSome (slice_get circuit.now.statements at) (λ s.
        out.new.items ≡ out.old.items ++ line_of (statement_words circuit.now.statements s))) }
{
    let row = row_of(circuit.form(at));
    let places = [row.x, row.y];
    let places = &places[..row.operation.arity()];
    let name = circuit.name(at);
    push_slots(
        alloc,
        out,
        circuit,
        name,
        &row,
        places,
        row.operation.slots(),
    )?;
    out.push(b'\n')?;
    Ok(())
}

/// Adds the words in some slots of a statement's line, with a space between each two.
fn push_slots(
    alloc: Global,
    out: &mut Vec<u8>,
    circuit: &Mixed,
    name: &str,
    row: &Row,
    places: &[u32],
    slots: &[Slot],
) -> Result<(), NoMemory>
    requires { AreEarlier (length circuit.now.statements) places.now }
    ensures { OnOk result (out.new.items
        ≡ out.old.items ++ join_with_byte 32 (slot_words circuit.now.statements name.now (row_shape
        row.now) places.now slots.now)) }
{
    let [slot, rest @ ..] = slots else {
        return Ok(());
    };
    push_slot(alloc, out, circuit, name, row, places, *slot)?;
    if rest.is_empty() {
        return Ok(());
    }
    out.push(b' ')?;
    push_slots(
        alloc,
        out,
        circuit,
        name,
        row,
        behind_slot(*slot, places),
        rest,
    )
}

/// The operands that are left behind a slot.
fn behind_slot(slot: Slot, places: &[u32]) -> &[u32]
    ensures { result.now ≡ places_behind slot places.entry.now }
{
    match (slot, places) {
        (Slot::Operand, [_, more @ ..]) => more,
        _ => places,
    }
}

/// Adds the word in a slot of a statement's line.
fn push_slot(
    alloc: Global,
    out: &mut Vec<u8>,
    circuit: &Mixed,
    name: &str,
    row: &Row,
    places: &[u32],
    slot: Slot,
) -> Result<(), NoMemory>
    requires { AreEarlier (length circuit.now.statements) places.now }
    ensures { OnOk result (out.new.items
        ≡ out.old.items ++ slot_word circuit.now.statements name.now (row_shape row.now) places.now slot) }
{
    match slot {
        Slot::Name => push_text(out, name.as_bytes()),
        Slot::Equals => push_text(out, b"="),
        Slot::Keyword => push_text(out, row.operation.word()),
        Slot::Owner => push_owner(alloc, out, row.party),
        Slot::Letter => push_text(out, letter_of(row.sharing)),
        Slot::Width => push_number(alloc, out, u64::from(row.width)),
        Slot::Place => push_number(alloc, out, u64::from(row.place)),
        Slot::Constant => push_number(alloc, out, row.constant),
        Slot::Operand => push_operand(out, circuit, places),
        Slot::Told => push_told(alloc, out, row.party),
    }
}

/// Adds the number of the party whose input it is at the end.
fn push_owner(alloc: Global, out: &mut Vec<u8>, party: Option<Party>) -> Result<(), NoMemory>
    ensures { OnOk result (out.new.items
        ≡ out.old.items ++ decimal (unwrap_or (option_map (λ party. party.0) party) 0)) }
{
    match party {
        Some(party) => push_number(alloc, out, u64::from(party.0)),
        None => push_number(alloc, out, 0),
    }
}

/// Adds who is told at the end.
fn push_told(alloc: Global, out: &mut Vec<u8>, party: Option<Party>) -> Result<(), NoMemory>
    ensures { OnOk result (out.new.items ≡ out.old.items ++ told_word (option_map (λ party. party.0) party)) }
{
    match party {
        Some(party) => push_number(alloc, out, u64::from(party.0)),
        None => push_text(out, b"all"),
    }
}

/// Adds the name of the first operand that is left at the end, if one is.
fn push_operand(out: &mut Vec<u8>, circuit: &Mixed, places: &[u32]) -> Result<(), NoMemory>
    requires { AreEarlier (length circuit.now.statements) places.now }
    ensures { OnOk result (out.new.items ≡ out.old.items ++ operand_word circuit.now.statements places.now) }
{
    match places {
        [x, ..] => push_text(out, circuit.name(*x).as_bytes()),
        [] => Ok(()),
    }
}

/// The letter of a sharing.
fn letter_of(sharing: Option<Sharing>) -> &'static [u8]
    ensures { result.now ≡ letter_word sharing }
{
    match sharing {
        Some(Sharing::A) => b"A",
        Some(Sharing::B) => b"B",
        Some(Sharing::Y) => b"Y",
        None => b"",
    }
}
