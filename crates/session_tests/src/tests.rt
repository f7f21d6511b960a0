//! Each line of a session's table over a hall in a list, and the bytes of a digest.
ghost use Rattle.std.specs.Prelude.{◌≡◌, ◌-◌, length, IfOk, IfSome};
ghost use Rattle.std.proofs.Props.{props};
ghost use Rattle.lot_base.specs.Goods.{IsRange};
ghost use Rattle.report_wire.specs.Frames.{IsMessage};
ghost use Rattle.report_wire.specs.Messages.{to_house, house_kind, house_payload};
ghost use Rattle.session.specs.Lists.{AreClocks, supply_in};

use auction_file::{Auction, MOST_BYTES, read};
use report_wire::{Frame, ToHouse};
use session::{ListHall, Session};
use std::alloc::Global;
use std::process::Abort;
use std::sync::Wait;
use std::test::Fail;

/// One unit of one good for two bidders, whose tokens are `abc` and `hello`.
const HEAD: &str = r#"
version = 1
ceiling = 10

[[goods]]
name = "oil"
supply = 1

[[bidders]]
name = "ada"
token = ""#;

const DIGEST: &str = "ba7816bf8f01cfea414140de5dae2223b00361a396177a9cb410ff61f20015ad";

const TAIL: &str = r#""

[[bidders]]
name = "bob"
token = "2cf24dba5fb0a30e26e83b2ac5b9e29e1b161e5c1fa7425e73043362938b9824"
"#;

/// A hello of bidder 1 with the token `abc`, as its kind and its payload.
const HELLO: &[u8] = &[1, 1, 0x61, 0x62, 0x63];

const WELCOME: &[u8] = &[17, 1, 3];

/// A frame and its reply, each as a kind and a payload, and whether the session goes on.
type Case<'a> = (&'a [u8], &'a [u8], bool);

/// A session beside its auction and its hall.
#[derive(Drop)]
struct Talk {
    auction: Auction,
    session: Session,
    hall: ListHall,
    ghost bidder: { IfSome session (IsRange 1 auction.terms.bidders) } by { Prim.hlevel props },
    ghost order: { AreClocks hall.clocks.items },
    ghost supply: { supply_in hall.clocks.items ≡ auction.terms.goods },
    ghost bidders: { length hall.clocks.items - 1 ≡ auction.terms.bidders },
}

impl Talk {
    fn new(rt: &impl Abort, alloc: Global, file: &[u8]) -> Result<Talk, Fail> {
        assert!(rt; file.len() <= MOST_BYTES);
        let auction = read(alloc, file)?;
        let hall = ListHall::open(alloc, &auction.terms)?;
        Ok(Talk {
            auction,
            session: Session::new(),
            hall,
        })
    }

    /// The frame of the reply, and whether the session goes on.
    fn say<T: Wait + Abort>(
        &mut self,
        rt: &T,
        alloc: Global,
        said: &[u8],
    ) -> Result<(Vec<u8>, bool), Fail> {
        let frame = frame_of(rt, alloc, said)?;
        let answer = self
            .session
            .answer(rt, alloc, &self.auction, &mut self.hall, frame);
        let reply = answer.reply.encode(alloc)?;
        Ok((reply, answer.goes_on))
    }
}

fn file_of(alloc: Global) -> Result<Vec<u8>, Fail> {
    let text = format!(in alloc; "{HEAD}{DIGEST}{TAIL}")?;
    Ok(text.as_bytes().to_vec(alloc)?)
}

/// The frame of a kind and a payload.
fn frame_of(rt: &impl Abort, alloc: Global, said: &[u8]) -> Result<ToHouse, Fail>
    ensures { IfOk result (λ m. IsMessage to_house (house_kind m) (house_payload m)) }
{
    assert!(rt; said.len() >= 1 && said.len() <= 100);
    let kind = said[0];
    let payload = said.split_at(1).1;
    assert!(rt; ToHouse::is_kind(kind));
    assert!(rt; ToHouse::allows(kind, payload.len() as u32));
    let found = match ToHouse::read(alloc, kind, payload) {
        Ok(found) => found,
        Err(fault) => return Err(Fail::from(fault)),
    };
    match found {
        Some(frame) => Ok(frame),
        None => Err(Fail::new("no payload of this kind")),
    }
}

/// Whether the reply is the wanted one, after its length.
fn replies<T: Wait + Abort>(
    rt: &T,
    alloc: Global,
    talk: &mut Talk,
    case: &Case,
) -> Result<bool, Fail> {
    let (said, wanted, on) = case;
    let (reply, goes_on) = talk.say(rt, alloc, said)?;
    let bytes = reply.as_slice();
    assert!(rt; bytes.len() >= 4);
    Ok(bytes.split_at(4).1 == *wanted && goes_on == *on)
}

/// Checks the frames of one session one after another.
fn check<T: Wait + Abort>(rt: &T, alloc: Global, cases: &[Case]) -> Result<(), Fail> {
    let file = file_of(alloc)?;
    let mut talk = Talk::new(rt, alloc, &file)?;
    for case in cases {
        let found = replies(rt, alloc, &mut talk, case)?;
        assert!(rt; found, "{case:?}");
    }
    Ok(())
}

#[test]
fn a_talk_from_before_the_hello_to_quit(rt: HostRuntime) -> Result<(), Fail> {
    check(
        &rt,
        rt.alloc(),
        &[
            (&[2, 0], &[21, 1, 0, 0, 0, 0, 0], true),
            (HELLO, WELCOME, true),
            (&[2, 0], &[18, 0, 0, 0, 0, 1, 0, 0, 1, 0, 0, 0, 0], true),
            (
                &[3, 0, 0, 0, 0, 1, 1, 0, 1, 0, 1],
                &[19, 0, 0, 0, 0, 1],
                true,
            ),
            (
                &[3, 0, 0, 0, 0, 1, 1, 0, 1, 0, 1],
                &[20, 0, 0, 0, 0, 1],
                true,
            ),
            (&[2, 1], &[21, 4, 0, 0, 0, 0, 1], true),
            (&[2, 3], &[21, 3, 0, 0, 0, 0, 3], true),
            (&[4], &[22], false),
        ],
    )
}

#[test]
fn a_hello_names_a_bidder_and_its_token(rt: HostRuntime) -> Result<(), Fail> {
    check(
        &rt,
        rt.alloc(),
        &[
            (&[1, 1, 0x61, 0x62, 0x64], &[21, 2, 0, 0, 0, 0, 1], false),
            (&[1, 2, 0x61, 0x62, 0x63], &[21, 2, 0, 0, 0, 0, 2], false),
            (&[1, 0, 0x61, 0x62, 0x63], &[21, 2, 0, 0, 0, 0, 0], false),
            (&[1, 3, 0x61, 0x62, 0x63], &[21, 2, 0, 0, 0, 0, 3], false),
            (HELLO, WELCOME, true),
            (HELLO, &[21, 13, 0, 0, 0, 0, 0], true),
        ],
    )
}

#[test]
fn a_report_is_refused_by_the_first_line_that_fits(rt: HostRuntime) -> Result<(), Fail> {
    check(
        &rt,
        rt.alloc(),
        &[
            (&[3, 9, 0, 0, 0, 0, 1, 0, 0], &[21, 1, 0, 0, 0, 0, 0], true),
            (HELLO, WELCOME, true),
            (&[3, 3, 0, 0, 0, 0, 1, 0, 0], &[21, 3, 0, 0, 0, 0, 3], true),
            (&[3, 1, 0, 0, 0, 0, 1, 0, 0], &[21, 4, 0, 0, 0, 0, 1], true),
            (&[3, 0, 0, 0, 0, 0, 1, 0, 0], &[21, 5, 1, 0, 0, 0, 0], true),
            (
                &[3, 0, 0, 0, 0, 0, 1, 0, 2, 0, 1, 0, 0],
                &[21, 5, 2, 0, 0, 0, 1],
                true,
            ),
            (
                &[3, 0, 0, 0, 0, 0, 1, 0, 2, 0, 0, 0, 2],
                &[21, 5, 3, 0, 0, 0, 1],
                true,
            ),
            (
                &[3, 0, 0, 0, 0, 0, 2, 0, 1, 0, 0, 0, 0],
                &[21, 5, 4, 0, 0, 0, 2],
                true,
            ),
            (
                &[3, 0, 0, 0, 0, 0, 1, 0, 1, 0, 1],
                &[21, 12, 0, 0, 0, 0, 0],
                true,
            ),
            (
                &[3, 0, 0, 0, 0, 2, 1, 0, 1, 0, 1],
                &[21, 6, 0, 0, 0, 0, 1],
                true,
            ),
            // The rounds 50,001, 60,001 and 4,294,967,295.
            (
                &[3, 0, 0, 0, 195, 81, 1, 0, 1, 0, 1],
                &[21, 6, 0, 0, 0, 0, 1],
                true,
            ),
            (
                &[3, 0, 0, 0, 234, 97, 1, 0, 1, 0, 1],
                &[21, 6, 0, 0, 0, 0, 1],
                true,
            ),
            (
                &[3, 0, 255, 255, 255, 255, 1, 0, 1, 0, 1],
                &[21, 6, 0, 0, 0, 0, 1],
                true,
            ),
        ],
    )
}

#[test]
fn a_report_meets_those_before_it(rt: HostRuntime) -> Result<(), Fail> {
    check(
        &rt,
        rt.alloc(),
        &[
            (HELLO, WELCOME, true),
            (
                &[3, 2, 0, 0, 0, 1, 1, 0, 1, 0, 1],
                &[19, 2, 0, 0, 0, 1],
                true,
            ),
            (
                &[3, 2, 0, 0, 0, 1, 1, 0, 1, 0, 0],
                &[21, 7, 0, 0, 0, 0, 1],
                true,
            ),
            (
                &[3, 2, 0, 0, 0, 2, 1, 0, 1, 0, 1],
                &[21, 8, 0, 0, 0, 0, 1],
                true,
            ),
            (&[2, 2], &[18, 2, 0, 0, 0, 1, 1, 0, 1, 0, 0, 0, 0], true),
        ],
    )
}

/// Whether a hello is refused where the first digit of this byte of the digest is another one.
fn refuses_another_digit<T: Wait + Abort>(rt: &T, alloc: Global, byte: u8) -> Result<bool, Fail> {
    let mut file = file_of(alloc)?;
    let place = HEAD.len() + 2 * byte as usize;
    assert!(rt; place < file.len());
    file[place] = if file[place] == b'0' { b'1' } else { b'0' };
    let mut talk = Talk::new(rt, alloc, &file)?;
    let case: Case = (HELLO, &[21, 2, 0, 0, 0, 0, 1], false);
    replies(rt, alloc, &mut talk, &case)
}

#[test]
fn each_byte_of_a_digest_counts(rt: HostRuntime) -> Result<(), Fail> {
    for byte in 0..32u8 {
        let refused = refuses_another_digit(&rt, rt.alloc(), byte)?;
        assert!(rt; refused, "byte {byte}");
    }
    Ok(())
}
