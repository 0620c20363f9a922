ghost use Rattle.std.specs.Prelude.{◌≡◌, ◌≢◌, ℕ, ◌<◌, ◌≤◌, ◌++◌, ◌↔◌, true, false, List, [], Some, None, length, take, min, get_or, position, slice_set, IfSome, IsTrue, IsErr, OnOk, OnErr, IsErrOf};
ghost use Rattle.std.specs.List.{position_or_len};
ghost use Rattle.mot_base.specs.declared.Party.{Party};
ghost use Rattle.mot_base.specs.declared.piece.Piece.{Piece};
ghost use Rattle.mot_base.specs.Faults.{Rose};
ghost use Rattle.mot_base.specs.Limits.{least_parties, most_parties};
ghost use Rattle.mot_base.specs.Links.{IsPeer, IsOpen, IsKept, IsAppended, IsSame, NamesPeer, Moves, Closes, IsFault};
ghost use Rattle.mot_base.specs.MemLinks.{LinksInMemory, new_links, bytes_by_party, sent_by_party, is_closed, is_peer, least_peer, is_open, is_given, all_parties, link_call_fails, after_link_call, after_connect, after_send, after_no_send, after_finish, no_piece, no_party, piece_taken, next_end, next_taken};

use crate::failing::is_listed;
use crate::{LinkError, LinkEvent, Links, MAX_PARTIES, NoMemory, Party, Piece, Place};
use std::alloc::Global;
use std::marker::Model;

/// Links in memory, whose calls fail where they are told to.
///
/// They give the pieces of peers in the order of the list, each in as many parts as the buffer
/// needs, and then close the peers of a list in its order. Once no other event is left, they close
/// the least peer that is open. What is listed of a party that is no peer, or is closed, is passed
/// over and stays.
#[derive(Drop)]
pub struct MemLinks {
    pieces: Vec<Piece>,
    closing: Vec<Party>,
    fails: Vec<u64>,
    calls: u64,
    faults: u64,
    place: Option<Place>,
    closed: [bool; MAX_PARTIES as usize],
    flushed: bool,
    sent: [Vec<u8>; MAX_PARTIES as usize],
}

impl Model for MemLinks {
    ghost use Rattle.std.specs.Prelude.{ℕ, ◌<◌, ◌≤◌, ◌≡◌, IfSome, length, map, vec_items};
    ghost use Rattle.mot_base.specs.Limits.{least_parties, most_parties};
    ghost use Rattle.mot_base.specs.MemLinks.{LinksInMemory};

    ghost Value = { LinksInMemory };

    ghost view = { λ links. record {
      pieces = links.pieces.items;
      closing = links.closing.items;
      fails = links.fails.items;
      calls = links.calls;
      faults = links.faults;
      place = links.place;
      closed = links.closed;
      flushed = links.flushed;
      sent = map vec_items links.sent;
    } };

    ghost invariant = { λ links. IfSome links.place (λ place.
        (least_parties ≤ place.parties) × (place.parties ≤ most_parties)
        × (place.me.0 < place.parties)) };
}

impl MemLinks {
    /// Links of these pieces, each with bytes, and these closings. `fails` lists the numbers, from
    /// 1, of the calls that are to fail.
    pub fn new(alloc: Global, pieces: Vec<Piece>, closing: Vec<Party>, fails: Vec<u64>) -> MemLinks
        ensures { result ≡ new_links pieces.items closing.items fails.items }
    {
        MemLinks {
            pieces,
            closing,
            fails,
            calls: 0,
            faults: 0,
            place: None,
            closed: [false; MAX_PARTIES as usize],
            flushed: false,
            sent: [
                Vec::new(alloc),
                Vec::new(alloc),
                Vec::new(alloc),
                Vec::new(alloc),
                Vec::new(alloc),
                Vec::new(alloc),
                Vec::new(alloc),
                Vec::new(alloc),
            ],
        }
    }

    /// They tell their bytes: what is left is what the pieces have, by party, and of links that
    /// were just made nothing was sent yet.
    pub fn tells_its_bytes()
        ensures left { (links : LinksInMemory) →
            ⟦<MemLinks as Links>⟧.left links ≡ Some (bytes_by_party links.pieces) }
        ensures sent { (links : LinksInMemory) →
            ⟦<MemLinks as Links>⟧.sent links ≡ Some (sent_by_party links.sent) }
        ensures closed { (links : LinksInMemory) →
            ⟦<MemLinks as Links>⟧.closed links ≡ is_closed links.closed }
        ensures flushed { (links : LinksInMemory) →
            ⟦<MemLinks as Links>⟧.flushed links ≡ links.flushed }
        ensures place { (links : LinksInMemory) → ⟦<MemLinks as Links>⟧.place links ≡ links.place }
        ensures new_left { (pieces : List Piece) (closing : List Party) (fails : List ℕ) →
            ⟦<MemLinks as Links>⟧.left (new_links pieces closing fails)
            ≡ Some (bytes_by_party pieces) }
        ensures new_sent { (pieces : List Piece) (closing : List Party) (fails : List ℕ) (q : ℕ) →
            IfSome (⟦<MemLinks as Links>⟧.sent (new_links pieces closing fails))
            (λ sent. sent q ≡ []) }
        ensures new_closed { (pieces : List Piece) (closing : List Party) (fails : List ℕ) (q : ℕ) →
            ⟦<MemLinks as Links>⟧.closed (new_links pieces closing fails) q ≡ false }
    {}

    /// Their count of faults is the count of their calls that failed.
    pub fn counts_its_faults()
        ensures { (links : LinksInMemory) → ⟦<MemLinks as Links>⟧.faults links ≡ links.faults }
    {}

    /// What was sent to a party.
    pub fn sent(&self, to: Party) -> &[u8]
        requires { to.0 < most_parties }
        ensures { result.now ≡ sent_by_party self.entry.now.sent to.0 }
    {
        self.sent[usize::from(to.0)].as_slice()
    }

    /// Counts a call, and says whether it is one that fails.
    fn count(&mut self) -> bool
        ensures fails { result ≡ link_call_fails self.old }
        ensures after { self.new ≡ after_link_call self.old }
        ensures cause { IsTrue result → Rose self.old.faults self.new.faults }
        ensures never_falls { self.old.faults ≤ self.new.faults }
    {
        let fails = is_listed(&self.fails, self.calls);
        self.calls = self.calls.saturating_add(1);
        if fails {
            self.faults = self.faults.saturating_add(1);
        }
        fails
    }

    /// Appends a piece to what was sent to a party.
    fn append(&mut self, to: Party, from: &[u8]) -> Result<(), NoMemory>
        requires { to.0 < most_parties }
        ensures ok { OnOk result (self.new ≡ record self.old {
          sent = slice_set self.old.sent to.0
              (sent_by_party self.old.sent to.0 ++ from.now);
        }) }
        ensures err { OnErr result (self.new ≡ self.old) }
    {
        let line = &mut self.sent[usize::from(to.0)];
        line.extend_from_slice(from)?;
        Ok(())
    }

    /// Gives the next bytes of the first piece that is given.
    fn give(&mut self, at: usize, into: &mut [u8]) -> LinkEvent
        requires { position (is_given self.old.place) self.old.pieces ≡ Some at }
        ensures event { result
            ≡ (piece_taken self.old (length into.old) at
            (get_or self.old.pieces at no_piece)).event }
        ensures links { self.new
            ≡ (piece_taken self.old (length into.old) at
            (get_or self.old.pieces at no_piece)).links }
        ensures given { let bytes = (get_or self.old.pieces at no_piece).bytes in
            let count = min (length into.old) (length bytes) in
            take count into.new ≡ take count bytes }
        ensures room { length into.new ≡ length into.old }
    {
        let piece = &mut self.pieces[at];
        let count = piece.bytes.give(into);
        LinkEvent::Bytes(piece.from, count)
    }

    /// Which peer is closed next. A closing that names it is used up.
    fn next_closing(&mut self) -> Party
        requires { IsOpen self.old.place (is_closed self.old.closed) }
        ensures event { LinkEvent.Closed result ≡ (next_end self.old).event }
        ensures links { self.new ≡ record (next_end self.old).links { closed = self.old.closed } }
        ensures open { is_open self.old.place self.old.closed result ≡ true }
    {
        let place = self.place;
        if let Some(at) = first_open(self.closing.as_slice(), place, self.closed.as_slice()) {
            return self.closing.remove(at);
        }
        least_open(place, self.closed.as_slice())
    }

    /// Closes the next peer.
    fn close(&mut self) -> Party
        requires { IsOpen self.old.place (is_closed self.old.closed) }
        ensures event { LinkEvent.Closed result ≡ (next_end self.old).event }
        ensures links { self.new ≡ (next_end self.old).links }
        ensures peer { IsPeer self.old.place result.0 }
        ensures open { is_closed self.old.closed result.0 ≡ false }
    {
        let party = self.next_closing();
        self.closed[usize::from(party.0)] = true;
        party
    }
}

/// Whether a party is a peer.
fn is_peer(place: Option<Place>, party: Party) -> bool
    ensures { result ≡ is_peer place party.0 }
{
    match place {
        Some(place) => party.0 < place.parties && party.0 != place.me.0,
        None => false,
    }
}

/// The least peer: party 0, or party 1 where party 0 is connected.
fn least_peer(place: Option<Place>) -> Party
    ensures { result ≡ least_peer place }
{
    match place {
        Some(place) if place.me.0 == 0 => Party(1),
        _ => Party(0),
    }
}

/// Whether a party is a peer that was not closed.
fn is_open(place: Option<Place>, closed: &[bool], party: Party) -> bool
    ensures { result ≡ is_open place closed.now party }
{
    let is_closed = closed.get(usize::from(party.0)).copied().unwrap_or(false);
    is_peer(place, party) && !is_closed
}

/// The place of the first of these parties that is an open peer.
fn first_open(parties: &[Party], place: Option<Place>, closed: &[bool]) -> Option<usize>
    ensures { result ≡ position (is_open place closed.now) parties.now }
{
    parties
        .iter()
        .position(|party| is_open(place, closed, *party))
}

/// The least peer that is open.
fn least_open(place: Option<Place>, closed: &[bool]) -> Party
    requires open { IsOpen place (is_closed closed.now) }
    requires most { IfSome place (λ place. place.parties ≤ most_parties) }
    ensures least { result
        ≡ get_or all_parties (position_or_len (is_open place closed.now) all_parties) no_party }
    ensures open { is_open place closed.now result ≡ true }
{
    match first_open(ALL_PARTIES.as_slice(), place, closed) {
        Some(at) => ALL_PARTIES[at],
        None => unreachable!(),
    }
}

/// The place of the first piece that is given: it is a peer's, and has bytes left.
fn first_given(pieces: &[Piece], place: Option<Place>) -> Option<usize>
    ensures { result ≡ position (is_given place) pieces.now }
{
    pieces.iter().position(|piece| is_peer(place, piece.from) && !piece.bytes.is_empty())
}

/// All parties that there may be.
const ALL_PARTIES: [Party; MAX_PARTIES as usize] = [
    Party(0),
    Party(1),
    Party(2),
    Party(3),
    Party(4),
    Party(5),
    Party(6),
    Party(7),
];

impl Links for MemLinks {
    ghost left = { λ links. Some (bytes_by_party links.pieces) };

    ghost sent = { λ links. Some (sent_by_party links.sent) };

    ghost closed = { λ links. is_closed links.closed };

    ghost flushed = { λ links. links.flushed };

    ghost place = { λ links. links.place };

    ghost faults = { λ links. links.faults };

    fn connect(
        &mut self,
        _alloc: Global,
        me: Party,
        parties: u8,
        _port: u16,
    ) -> Result<(), LinkError>
        requires least { least_parties ≤ parties }
        requires most { parties ≤ most_parties }
        requires me { me.0 < parties }
        ensures placed { OnOk result (self.new.place
            ≡ Some (record { me = me; parties = parties })) }
        ensures refused { OnErr result (self.new.place ≡ None) }
        ensures left { (q : ℕ) →
            bytes_by_party self.new.pieces q ≡ bytes_by_party self.old.pieces q }
        ensures sent { (q : ℕ) → sent_by_party self.new.sent q ≡ sent_by_party self.old.sent q }
        ensures closed { (q : ℕ) → is_closed self.new.closed q ≡ false }
        ensures flushed { self.new.flushed ≡ false }
        ensures cause { IsErrOf result LinkError.Failed → Rose self.old.faults self.new.faults }
        ensures never_falls { self.old.faults ≤ self.new.faults }
        ensures failed { IsErr result ↔ IsTrue (link_call_fails self.old) }
        ensures no_other { ¬ IsErrOf result LinkError.NoMemory }
        ensures after_ok { OnOk result (self.new
            ≡ after_connect self.old (Some (record { me = me; parties = parties }))) }
        ensures after_err { OnErr result (self.new ≡ after_connect self.old None) }
    {
        self.place = None;
        self.closed = [false; MAX_PARTIES as usize];
        self.flushed = false;
        if self.count() {
            return Err(LinkError::Failed);
        }
        self.place = Some(Place { me, parties });
        Ok(())
    }

    fn take(&mut self, _alloc: Global, into: &mut [u8]) -> LinkEvent
        requires room { 0 < length into.old }
        requires open { IsOpen self.old.place (is_closed self.old.closed) }
        ensures peer { NamesPeer self.old.place result }
        ensures moves { Moves (Some (bytes_by_party self.old.pieces))
            (Some (bytes_by_party self.new.pieces)) into.new result }
        ensures room { length into.new ≡ length into.old }
        ensures sent { (q : ℕ) → sent_by_party self.new.sent q ≡ sent_by_party self.old.sent q }
        ensures closes { Closes (is_closed self.old.closed) (is_closed self.new.closed) result }
        ensures flushed { self.new.flushed ≡ self.old.flushed }
        ensures place { self.new.place ≡ self.old.place }
        ensures cause { IsFault result → Rose self.old.faults self.new.faults }
        ensures never_falls { self.old.faults ≤ self.new.faults }
        ensures event { result ≡ (next_taken self.old (length into.old)).event }
        ensures after { self.new ≡ (next_taken self.old (length into.old)).links }
    {
        if self.count() {
            return LinkEvent::Failed(least_peer(self.place));
        }
        match first_given(self.pieces.as_slice(), self.place) {
            Some(at) => self.give(at, into),
            None => LinkEvent::Closed(self.close()),
        }
    }

    fn send(&mut self, _alloc: Global, to: Party, from: &[u8]) -> Result<(), LinkError>
        requires peer { IsPeer self.old.place to.0 }
        ensures all { OnOk result (IsAppended (Some (sent_by_party self.old.sent))
            (Some (sent_by_party self.new.sent)) to.0 from.now) }
        ensures some { OnErr result ((n : ℕ) × IsAppended (Some (sent_by_party self.old.sent))
            (Some (sent_by_party self.new.sent)) to.0 (take n from.now)) }
        ensures left { (q : ℕ) →
            bytes_by_party self.new.pieces q ≡ bytes_by_party self.old.pieces q }
        ensures closed { IsSame (is_closed self.old.closed) (is_closed self.new.closed) }
        ensures flushed { self.new.flushed ≡ false }
        ensures place { self.new.place ≡ self.old.place }
        ensures cause { IsErrOf result LinkError.Failed → Rose self.old.faults self.new.faults }
        ensures never_falls { self.old.faults ≤ self.new.faults }
        ensures failed { IsErrOf result LinkError.Failed ↔ IsTrue (link_call_fails self.old) }
        ensures after_ok { OnOk result (self.new ≡ after_send self.old to.0 from.now) }
        ensures after_err { OnErr result (self.new ≡ after_no_send self.old) }
    {
        self.flushed = false;
        if self.count() {
            return Err(LinkError::Failed);
        }
        self.append(to, from)?;
        Ok(())
    }

    fn finish(&mut self, _alloc: Global) -> Result<(), LinkError>
        ensures flushed { OnOk result (self.new.flushed ≡ true) }
        ensures unflushed { OnErr result (self.new.flushed ≡ self.old.flushed) }
        ensures left { (q : ℕ) →
            bytes_by_party self.new.pieces q ≡ bytes_by_party self.old.pieces q }
        ensures sent { (q : ℕ) → sent_by_party self.new.sent q ≡ sent_by_party self.old.sent q }
        ensures closed { IsSame (is_closed self.old.closed) (is_closed self.new.closed) }
        ensures place { self.new.place ≡ self.old.place }
        ensures cause { IsErrOf result LinkError.Failed → Rose self.old.faults self.new.faults }
        ensures never_falls { self.old.faults ≤ self.new.faults }
        ensures failed { IsErr result ↔ IsTrue (link_call_fails self.old) }
        ensures no_other { ¬ IsErrOf result LinkError.NoMemory }
        ensures after_ok { OnOk result (self.new ≡ after_finish self.old) }
        ensures after_err { OnErr result (self.new ≡ after_link_call self.old) }
    {
        if self.count() {
            return Err(LinkError::Failed);
        }
        self.flushed = true;
        Ok(())
    }
}
