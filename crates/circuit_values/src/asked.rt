ghost use Rattle.std.specs.Prelude.{◌≡◌, ◌<◌, ℕ, List, length, slice_get, IfOk, IfSome};
ghost use Rattle.std.specs.Ordering.{nat_cmp};
ghost use Rattle.std.specs.Cmp.Lexicographic.{slice_cmp};
ghost use Rattle.std.specs.BTreeMap.{get_by};
ghost use Rattle.circuit_tables.specs.Table.{AreNamedApart};
ghost use Rattle.circuit_values.specs.Values.{place_asked, width_at};
ghost use Rattle.circuit_tables.specs.Values.{is_owned};

use circuit_tables::InputTable;
use mot_base::Party;
use std::alloc::{AllocError, Global};
use std::collections::BTreeMap;
use std::marker::Model;

/// The inputs of a table of which values are asked for, and their places by their names.
#[derive(Drop)]
pub struct Asked<'a> {
    inputs: &'a InputTable,
    owner: Option<Party>,
    places: BTreeMap<&'a [u8], u32>,
}

impl<'a> Model for Asked<'a> {
    ghost use Rattle.std.specs.Prelude.{◌≡◌, ℕ, List};
    ghost use Rattle.std.specs.Ordering.{nat_cmp};
    ghost use Rattle.std.specs.Cmp.Lexicographic.{slice_cmp};
    ghost use Rattle.std.specs.BTreeMap.{get_by};
    ghost use Rattle.circuit_values.specs.Values.{Question, place_asked};

    ghost Value = { Question };

    ghost view = { λ a. record { inputs = a.inputs.now; owner = a.owner } };

    ghost invariant = { λ a. (name : List ℕ) →
        get_by (λ key. slice_cmp nat_cmp name key.now) a.places
        ≡ place_asked a.owner a.inputs.now name };
}

impl<'a> Asked<'a> {
    ghost use Rattle.circuit_values.specs.Values.{Question};

    /// The inputs of an owner, or all where there is none.
    pub fn of(
        alloc: Global,
        inputs: &'a InputTable,
        owner: Option<Party>,
    ) -> Result<Asked<'a>, AllocError>
        requires { AreNamedApart inputs.now }
        ensures { IfOk result (λ asked. asked ≡ record { inputs = inputs.entry.now; owner = owner }) }
    {
        let places = places_of(alloc, inputs, owner)?;
        Ok(Asked {
            inputs,
            owner,
            places,
        })
    }

    /// The place of the input that is asked for and has a name.
    pub fn place(&self, name: &[u8]) -> Option<u32>
        ensures place { result ≡ place_asked self.now.owner self.now.inputs name.now }
        ensures within { IfSome result (λ at. at < length self.now.inputs) }
    {
        let places = &self.places;
        places.get(name).copied()
    }

    /// How many inputs there are, asked for or not.
    pub fn len(&self) -> u32
        ensures { result ≡ length self.now.inputs }
    {
        self.inputs.len()
    }

    /// How many bits the value of an input has.
    pub fn width(&self, at: u32) -> u32
        requires { at < length self.now.inputs }
        ensures { result ≡ width_at self.now.inputs at }
    {
        self.inputs.width(at)
    }

    /// Whether the value of an input is asked for.
    pub fn is_asked(&self, at: u32) -> bool
        requires { at < length self.now.inputs }
        ensures { IfSome (slice_get self.now.inputs at) (λ x. result ≡ is_owned self.now.owner x.party) }
    {
        is_owned_by(self.owner, self.inputs.party(at))
    }
}

/// Whether a party is the owner, where there is one.
fn is_owned_by(owner: Option<Party>, party: Party) -> bool
    ensures { result ≡ is_owned owner party }
{
    match owner {
        Some(owner) => owner.0 == party.0,
        None => true,
    }
}

/// The places of the inputs that are asked for, by their names.
fn places_of<'a>(
    alloc: Global,
    inputs: &'a InputTable,
    owner: Option<Party>,
) -> Result<BTreeMap<&'a [u8], u32>, AllocError>
    requires { AreNamedApart inputs.now }
    ensures { IfOk result (λ places. (name : List ℕ)
        → get_by (λ key. slice_cmp nat_cmp name key.now) places ≡ place_asked owner inputs.entry.now name) }
{
    let mut places = BTreeMap::new(alloc);
    for at in 0..inputs.len() {
        if is_owned_by(owner, inputs.party(at)) {
            places.insert(inputs.name(at).as_bytes(), at)?;
        }
    }
    Ok(places)
}
