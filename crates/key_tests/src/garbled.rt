//! The garbled AND of one bit of two and of three parties, from the records of the dealer's tape of the seed of 32
//! zero bytes: each party's share of the table, and what the joined table gives.
ghost use Rattle.std.specs.Prelude.{◌≡◌, ◌≤◌, ◌<◌, ◌*◌, length, IfOk, IfSome};
ghost use Rattle.std.specs.Bool.{OnTrue};
ghost use Rattle.bmr_keys.specs.Mask.{owners_of};
ghost use Rattle.bmr_garble.specs.Table.{HaveShape};
ghost use Rattle.bmr_eval.specs.Active as evaluated;

use bmr_eval::eval_and;
use bmr_garble::{Table, mask_close, mask_open, product_close, table_share};
use bmr_keys::MaskPart;
use mot_base::{Party, Payload, Seed, derive};
use share_types::{BitTriple, Bits, Key, KeyBit, Keys, Online};
use std::alloc::Global;
use std::test::Fail;

/// What one party has at the garbled AND: its offset, its part of the triple, what it opens and the XOR of
/// what all parties open, its records, and the payload of its share of the table.
struct Seat {
    parties: u8,
    me: u8,
    offset: u128,
    triple: [u64; 3],
    sent: [u64; 3],
    opened: [u64; 3],
    records: [(bool, [u128; 3]); 4],
    table: &'static str,
}

// the parties of two and of three
static TWO: [Seat; 2] = [
    Seat {
        parties: 2,
        me: 0,
        offset: 0x4001d84b79475c5afe724516bdc12349,
        triple: [1, 0, 1],
        sent: [1, 0, 1],
        opened: [1, 1, 0],
        records: [
            (
                false,
                [
                    0x1f2d56ba401f86898b80c6bf81f65fb5,
                    0xe74df6c8ecbbc475376253001c56c67d,
                    0,
                ],
            ),
            (
                false,
                [
                    0xabd8347f6f2917302080b867737a81e1,
                    0x9359ccceb1da385a373b6aa0bafda221,
                    0,
                ],
            ),
            (
                true,
                [
                    0x280801931f6324cf93e10d7cc351ed13,
                    0xfa7290f534617f668101dda5291e772c,
                    0,
                ],
            ),
            (
                false,
                [
                    0xb2bb77d902991cbed8629304234e0239,
                    0x170228584df57fe00aeeab2fcc56b6a1,
                    0,
                ],
            ),
        ],
        table: "d3426bd9d5100118f87f3c8673e4edc501949d1b38b04b1b616d3aebf9b17601e66408a75d6eadfb93f008fc226e01315a0c71dc55dbe1c104e6c0e552a877896a83e1b8c968f94e3ab25cbebdf68cc56d53b21f4588ca47fe1f089a3a82ecbbb0f9e5863d1ce102c102efa9a25eab568e29fef269f1fa4340ef6504bab4ee8e",
    },
    Seat {
        parties: 2,
        me: 1,
        offset: 0x2732711a278f257d9eba5eac117b148f,
        triple: [0, 0, 1],
        sent: [0, 1, 1],
        opened: [1, 1, 0],
        records: [
            (
                false,
                [
                    0x1f2d56ba401f86898b80c6bf81f65fb5,
                    0xe74df6c8ecbbc475376253001c56c67d,
                    0,
                ],
            ),
            (
                true,
                [
                    0xebd9ec34166e4b6adef2fd71cebba2a8,
                    0xb46bbdd496551d27a981340cab86b6ae,
                    0,
                ],
            ),
            (
                false,
                [
                    0x6809d9d8662478956d93486a7e90ce5a,
                    0xdd40e1ef13ee5a1b1fbb8309386563a3,
                    0,
                ],
            ),
            (
                false,
                [
                    0xb2bb77d902991cbed8629304234e0239,
                    0x170228584df57fe00aeeab2fcc56b6a1,
                    0,
                ],
            ),
        ],
        table: "afa950a2f67b48f025cdc99470e4cba5780d0c6a8e6e9ffe9c6f507d2f7c43a8266ceb5abe9070775443a83dbb163bdee793545ded69bba769406c9dcbc46edaf2be39117f51019b4891921466f5724c6d81b758baa3cb19f1416b9f9f4d94eab3e8371e007f479904bc8100d3da293328409b44e17eeb424b7bd98ba4e55e94",
    },
];

static THREE: [Seat; 3] = [
    Seat {
        parties: 3,
        me: 0,
        offset: 0x4001d84b79475c5afe724516bdc12349,
        triple: [1, 0, 0],
        sent: [1, 1, 1],
        opened: [0, 0, 0],
        records: [
            (
                false,
                [
                    0x49c5d22e28157f2cc7cd4eaf9fc14594,
                    0xfeca84a4cf4af600b8f966def992849a,
                    0x1e31e15334958caf2c9b0fab5b495a8b,
                ],
            ),
            (
                true,
                [
                    0x65d47415c826963bc507d7f218787cc8,
                    0x6cc2937dc517c11d2c46eb49e0497c1a,
                    0x76a7874eb29a9a0e1989a2b103d5b093,
                ],
            ),
            (
                false,
                [
                    0x4c95d6f8036ecf596fb32d44251877c8,
                    0x49f0a41f70d3429d003d5352124a9edb,
                    0xd1f7b36a79511eef926f0708f732da71,
                ],
            ),
            (
                true,
                [
                    0x1573b1af0f5439a763331d4a67530548,
                    0x171a2f959c2505bb45ca1460d2b36783,
                    0xea5b709cdc5bb08665fa034b5c6e39bc,
                ],
            ),
        ],
        table: "10177ac4c4d0cf97bf7c92f0d1b0706fb20eae3cadd20cbbaf750b53dc004ed47049d8163b397e758b57201fb9152d4173d99d2e24a49ad198be2e9a9e0d86baf0113097e34894144565c48392dd0dbba2cd5e3d0966089925d81905e297358167dab0cf7fa7b6ca98369d5d74a0ec462152de8ba42774a02b7ab8cb45870a55233e91462e30b8350db40a7c07c3861eeb483065e3d957232fcba65a753fd1f4dbafe00aabaf76d11a11e08b20754a87131fcd4a3be7ea34687ba0fdd1050cef",
    },
    Seat {
        parties: 3,
        me: 1,
        offset: 0x2732711a278f257d9eba5eac117b148f,
        triple: [1, 1, 1],
        sent: [0, 1, 1],
        opened: [0, 0, 0],
        records: [
            (
                true,
                [
                    0xe21de651473c681ce74df6c8ecbbc475,
                    0xb46bbdd496551d27a981340cab86b6ae,
                    0x1fbb8309386563a36809d9d866247895,
                ],
            ),
            (
                false,
                [
                    0x4df57fe00aeeab2fcc56b6a1b2bb77d9,
                    0xbaf48dae06f3198901c96d77a4de4b9e,
                    0x83f8e0c7c67416642ad4bbd77747a0e6,
                ],
            ),
            (
                true,
                [
                    0xe2e8f8db7d7fa46f447b8ec220af87,
                    0xc7348338960e65f4d4eadaefe7290e16,
                    0xde56f144422998c97322c080bc2bf790,
                ],
            ),
            (
                false,
                [
                    0x30891bc9787528fc4f0042e8319ece1b,
                    0x77940cfeff04161eacd74b5a880b933a,
                    0xc611988248aa31054bf83ea50c01800e,
                ],
            ),
        ],
        table: "45700d9231ce7b83b0782b9cde84665a02ef4a1bb97fc9eff107e9eeb46d0b864c5628dd0b6983ce5c23a07094f582bd318506817e06ad91ad3b7a42783b0de1ce575930a09634e49acbb202e7055627c89e57ee3d8d6c2c0f694c4993bc3300be4bf7f5a464d2adcf803bccb4950ac219fcc1531d1499a634618b770b0421f412828af3ef621f5c2dbb5329b6fb97c8022d4911dc697a3aef6018af6cf7ca7d0f1ba6533c2760af10b85e6f877c9b593615a0b1ec37e0c0dc0f219a93d9da0b",
    },
    Seat {
        parties: 3,
        me: 2,
        offset: 0x1c2add9a53828a3699d2379c2e837805,
        triple: [1, 0, 0],
        sent: [1, 0, 0],
        opened: [0, 0, 0],
        records: [
            (
                false,
                [
                    0xebd9ec34166e4b6adef2fd71cebba2a8,
                    0x6d93486a7e90ce5a8fc20c7e436f26bb,
                    0x1da0bfc05f72653add40e1ef13ee5a1b,
                ],
            ),
            (
                false,
                [
                    0x6820d3bebb8f614ef723244517022858,
                    0xf1046fc9e46bfde9b335d89255ec230b,
                    0xe975ba13276c065caa8f2efa5a116870,
                ],
            ),
            (
                true,
                [
                    0x4c773e00d813b0fd00f756cae738d84f,
                    0x8ec42727e6dd2769d4d789bdf56390cd,
                    0xfa1422e3b788626e14dc7884b192de1,
                ],
            ),
            (
                false,
                [
                    0x65fb722d0e664d01d2411ab4eb0ce81a,
                    0x47bc527144ae36d877a701964bc3e036,
                    0x30603584c7730bb5b7d00a727eecc1b7,
                ],
            ),
        ],
        table: "bcc3abadd92e3ccb2b85e368fe825be9007e46a0c27cda543f5f89ff7933095f7d586b8ca9ce0d78b4b322ddbe579d537eae193ddf3841abe73334e2fe28c99db8381fd7e9434e5dce4153c1b8ebc4b8acad06ba5473fa757a7c3479e8b52f95d0f9a1622648fd5fddc21755168204fd9eac981a1945ba0a28e5a6be1e5a1b68146edea4fae97e2d85d6c0a042b295a21b3984486b3c8e2c5905ea18b582c91b4c0755b856bf2fa96d4a1c589803303e43c0f9f985ef33e19ea586d62c825fee",
    },
];

/// The seats of two parties, or of three.
fn seats(two: bool) -> &'static [Seat] {
    if two { &TWO } else { &THREE }
}

/// A vector of one bit.
fn one_bit(word: u64) -> Bits
    ensures { result.width ≡ 1 }
{
    Bits {
        word: word % 2,
        width: 1,
    }
}

/// A key record of so many owners.
fn key_bit(alloc: Global, seat: &Seat, number: usize) -> Result<KeyBit, Fail>
    requires number { number < 4 }
    requires parties { seat.now.parties ≤ 3 }
    ensures { IfOk result (λ key_bit. length key_bit.times ≡ seat.now.parties) }
{
    let (bit, keys) = seat.records[number];
    let mut times = Vec::new(alloc);
    for owner in 0..seat.parties {
        times.push(Key(keys[usize::from(owner)]))?;
    }
    Ok(KeyBit {
        bit,
        times: Keys::new(times),
    })
}

/// The fresh mask of a key record.
fn mask(alloc: Global, seat: &Seat, number: u8) -> Result<MaskPart, Fail>
    requires number { number < 4 }
    requires parties { seat.now.parties ≤ 3 }
    ensures { IfOk result (λ part. part.mask.width ≡ 1) }
{
    let seed = derive(&Seed([0; 32]), seat.me);
    let record = key_bit(alloc, seat, usize::from(number))?;
    Ok(MaskPart::from_stock(alloc, &[record], &seed, u32::from(number), seat.parties)?)
}

/// The masks of both inputs.
fn inputs(alloc: Global, seat: &Seat) -> Result<(MaskPart, MaskPart), Fail>
    requires { seat.now.parties ≤ 3 }
    ensures left { IfOk result (λ masks. masks.0.mask.width ≡ 1) }
    ensures right { IfOk result (λ masks. masks.1.mask.width ≡ 1) }
{
    let left = mask(alloc, seat, 0)?;
    let right = mask(alloc, seat, 1)?;
    Ok((left, right))
}

/// The party's part of the triple.
fn triple(seat: &Seat) -> BitTriple
    ensures { result.a.width ≡ 1 }
{
    BitTriple {
        a: one_bit(seat.triple[0]),
        b: one_bit(seat.triple[1]),
        c: one_bit(seat.triple[2]),
    }
}

/// The shares of the product times each offset.
fn product(alloc: Global, seat: &Seat) -> Result<Vec<Key>, Fail>
    requires some { seat.now.me < seat.now.parties }
    requires most { seat.now.parties ≤ 3 }
{
    let record = key_bit(alloc, seat, 3)?;
    let f = one_bit(seat.opened[2]);
    Ok(product_close(alloc, Party(seat.me), Key(seat.offset), &[record], f)?)
}

/// Whether parts and shares have one bit and the same owners.
fn fit(u: &MaskPart, v: &MaskPart, w: &MaskPart, product: &[Key]) -> bool
    requires { u.now.mask.width ≡ 1 }
    ensures { OnTrue result (HaveShape (owners_of u.now) 1 u.now v.now w.now product.now) }
{
    let owners = u.owners();
    u.keys.as_slice().len() == 1
        && u.times.as_slice().len() == owners
        && v.keys.as_slice().len() == 1
        && v.times.as_slice().len() == owners
        && w.keys.as_slice().len() == 1
        && w.times.as_slice().len() == owners
        && product.len() == owners
}

/// The party's share of the table, or none where it does not fit.
fn share(alloc: Global, seat: &Seat, u: &MaskPart, v: &MaskPart) -> Result<Option<Table>, Fail>
    requires width { u.now.mask.width ≡ 1 }
    requires some { seat.now.me < seat.now.parties }
    requires most { seat.now.parties ≤ 3 }
{
    let w = mask(alloc, seat, 2)?;
    let product = product(alloc, seat)?;
    shared(alloc, seat, u, v, &w, product.as_slice())
}

/// The same from its masks and its shares of the product.
fn shared(
    alloc: Global,
    seat: &Seat,
    u: &MaskPart,
    v: &MaskPart,
    w: &MaskPart,
    product: &[Key],
) -> Result<Option<Table>, Fail>
    requires width { u.now.mask.width ≡ 1 }
    requires most { seat.now.parties ≤ 3 }
{
    if !fit(u, v, w, product) || usize::from(seat.me) >= u.owners() || u.owners() > 8 {
        return Ok(None);
    }
    let me = Party(seat.me);
    Ok(Some(table_share(alloc, me, Key(seat.offset), 5, u, v, w, product)?))
}

/// Whether the party opens what the other program's did.
fn opens(seat: &Seat, u: &MaskPart, v: &MaskPart) -> bool
    requires left { u.now.mask.width ≡ 1 }
    requires right { v.now.mask.width ≡ 1 }
{
    let (d, e) = mask_open(u, v, triple(seat));
    let share = mask_close(
        Party(seat.me),
        triple(seat),
        one_bit(seat.opened[0]),
        one_bit(seat.opened[1]),
    );
    let f = share.word ^ u64::from(seat.records[3].0);
    d.word == seat.sent[0] && e.word == seat.sent[1] && f == seat.sent[2]
}

/// Whether the party opens and garbles as the other program did.
fn garbles(alloc: Global, seat: &Seat) -> Result<bool, Fail>
    requires some { seat.now.me < seat.now.parties }
    requires most { seat.now.parties ≤ 3 }
{
    let (u, v) = inputs(alloc, seat)?;
    let table = share(alloc, seat, &u, &v)?;
    Ok(opens(seat, &u, &v) && is_table(alloc, seat, table.as_ref())?)
}

/// Whether a table has the keys of the seat's payload.
fn is_table(alloc: Global, seat: &Seat, table: Option<&Table>) -> Result<bool, Fail> {
    let Some(table) = table else {
        return Ok(false);
    };
    let payload = table.payload(alloc)?;
    let text = hex::encode(alloc, payload.bytes())?;
    Ok(text.as_str() == seat.table)
}

/// Whether all parties garble as the other program did.
fn all_garble(alloc: Global, seats: &[Seat]) -> Result<bool, Fail> {
    let mut same = true;
    for seat in seats {
        same = same && seat.me < seat.parties && seat.parties <= 3 && garbles(alloc, seat)?;
    }
    Ok(same)
}

#[test]
fn a_garbled_and_has_these_shares(rt: HostRuntime) -> Result<(), Fail> {
    let alloc = rt.alloc();
    let same = all_garble(alloc, seats(true))? && all_garble(alloc, seats(false))?;
    assert!(rt; same);
    Ok(())
}

/// What all parties see at the garbled AND: of each wire the masked bit, and the active keys of the owners.
struct Run {
    parties: u8,
    left: (u64, [u128; 3]),
    right: (u64, [u128; 3]),
    result: (u64, [u128; 3]),
}

static RUNS: [Run; 2] = [
    Run {
        parties: 2,
        left: (
            1,
            [
                0x8f5b5c435fd2f3fb84232b809cfd632f,
                0x970ff1d04826873f4cdb770190b3cfdd,
                0,
            ],
        ),
        right: (
            0,
            [
                0x5e114a0581709185d73c5539f4d3383e,
                0x86ed902860462a5fc91e129d8597474c,
                0,
            ],
        ),
        result: (
            0,
            [
                0xa96c28e17e26d4ac300deb913dba8316,
                0x39f1d0db3a4dc4327c0ebb7eea70dddc,
                0,
            ],
        ),
    },
    Run {
        parties: 3,
        left: (
            0,
            [
                0xcf5a84082695afa17a516e96213c4066,
                0xb03d80ca6fa9a242d26129ad81c8db52,
                0xf66f9d52328777df787ef6e31f964af6,
            ],
        ),
        right: (
            0,
            [
                0x5e114a0581709185d73c5539f4d3383e,
                0x86ed902860462a5fc91e129d8597474c,
                0x86d150ff00f4f234e870aa5c31b932f4,
            ],
        ),
        result: (
            1,
            [
                0xe96df0aa076188f6ce7fae87807ba05f,
                0x1ec3a1c11dc2e14fe2b4e5d2fb0bc953,
                0x955087b587290290f8d9071cdb9cb90b,
            ],
        ),
    },
];

/// What is seen of a wire of one bit.
fn online(alloc: Global, parties: u8, wire: &(u64, [u128; 3])) -> Result<Online, Fail>
    requires { parties ≤ 3 }
    ensures width { IfOk result (λ online. online.masked.width ≡ 1) }
    ensures keys { IfOk result (λ online. length online.keys ≡ parties) }
{
    let mut keys = Vec::new(alloc);
    for owner in 0..parties {
        keys.push(Key(wire.1[usize::from(owner)]))?;
    }
    Ok(Online {
        masked: one_bit(wire.0),
        keys: Keys::new(keys),
    })
}

/// The table that the seats' payloads join to, or none where one does not fit.
fn joined(alloc: Global, parties: u8, seats: &[Seat]) -> Result<Option<Table>, Fail>
    requires { parties ≤ 3 }
    ensures { IfOk result (λ table. IfSome table (λ t. (t.width ≡ 1) × (t.parties ≡ parties) × (length t.rows ≡ 4 * parties))) }
{
    let keys = vec![in alloc; Key(0); 4 * usize::from(parties)]?;
    let mut table = Table {
        width: 1,
        parties,
        rows: Keys::new(keys),
    };
    if add_all(alloc, &mut table, seats)? {
        Ok(Some(table))
    } else {
        Ok(None)
    }
}

/// Adds all seats' payloads to a table; whether each fits.
fn add_all(alloc: Global, table: &mut Table, seats: &[Seat]) -> Result<bool, Fail>
    ensures width { table.new.width ≡ table.old.width }
    ensures parties { table.new.parties ≡ table.old.parties }
    ensures rows { length table.new.rows ≡ length table.old.rows }
{
    for seat in seats {
        let payload = Payload::new(hex::decode(alloc, seat.table)?);
        if payload.bytes().len() != 16 * table.rows.as_slice().len() {
            return Ok(false);
        }
        table.join_payload(&payload);
    }
    Ok(true)
}

/// Whether the joined table gives the run's result.
fn evaluates(alloc: Global, run: &Run, table: &Table) -> Result<bool, Fail>
    requires parties { run.now.parties ≤ 3 }
    requires width { table.now.width ≡ 1 }
    requires owners { table.now.parties ≡ run.now.parties }
    requires rows { length table.now.rows ≡ 4 * run.now.parties }
{
    if run.parties < 1 {
        return Ok(false);
    }
    let left = online(alloc, run.parties, &run.left)?;
    let right = online(alloc, run.parties, &run.right)?;
    gives(alloc, run, table, &left, &right)
}

/// The same from what is seen of both inputs.
fn gives(
    alloc: Global,
    run: &Run,
    table: &Table,
    left: &Online,
    right: &Online,
) -> Result<bool, Fail>
    requires some { 1 ≤ table.now.parties }
    requires most { table.now.parties ≤ 3 }
    requires owners { table.now.parties ≡ run.now.parties }
    requires shape { evaluated.HaveShape table.now left.now right.now }
{
    let result = eval_and(alloc, table, 5, left, right)?;
    let wanted = online(alloc, run.parties, &run.result)?;
    Ok(result.masked == wanted.masked && result.keys.as_slice() == wanted.keys.as_slice())
}

/// Whether the tables of all parties give the run's result.
fn run_gives(alloc: Global, run: &Run, seats: &[Seat]) -> Result<bool, Fail> {
    if run.parties > 3 {
        return Ok(false);
    }
    let Some(table) = joined(alloc, run.parties, seats)? else {
        return Ok(false);
    };
    evaluates(alloc, run, &table)
}

#[test]
fn joined_tables_give_the_active_keys_of_the_result(rt: HostRuntime) -> Result<(), Fail> {
    let alloc = rt.alloc();
    let two = run_gives(alloc, &RUNS[0], seats(true))?;
    let three = run_gives(alloc, &RUNS[1], seats(false))?;
    assert!(rt; two && three);
    Ok(())
}
