//! The text of what was decided of a bidder's reports.
ghost use Rattle.std.specs.Prelude.{◌≡◌, ◌≤◌, ◌∷◌, [], IfOk, codes, decimal, length, string_bytes};
ghost use Rattle.std.specs.List.{AllByRecursion};
ghost use Rattle.lot_base.specs.Box.{box};
ghost use Rattle.lot_base.specs.Goods.{box_size};
ghost use Rattle.rationale.specs.declared.links.Link.{Link as LinkValue};
ghost use Rattle.outcome_text.specs.Lines.{line, text_of};
ghost use Rattle.house_run.specs.JudgeCommand.{link_lines, link_words, place_of, value_lines, value_words};

use lot_base::{Bundle, Goods};
use observed_demand::Place;
use outcome_text::write_bundle;
use rationale::Link;
use std::alloc::{AllocError, Global};
use std::fmt::Write;

/// The text of the values of all bundles, by which the bidder is rational.
pub(crate) fn values_text(
    alloc: Global,
    bidder: u8,
    goods: &Goods,
    values: &[i64],
) -> Result<Vec<u8>, AllocError>
    requires { length values.now ≡ box_size goods.now }
    ensures { IfOk result (λ text. text.items ≡ text_of
        ((codes "rational" ∷ codes "bidder" ∷ decimal bidder ∷ codes "bundles" ∷ decimal (box_size goods.now) ∷ [])
        ∷ value_lines (box goods.now) values.now)) }
{
    let bundles = goods.box_size();
    let mut text = format!(in alloc; "rational bidder {bidder} bundles {bundles}\n")?.into_bytes();
    for index in 0..bundles {
        let line = value_line(alloc, &goods.bundle(index), &values[index as usize])?;
        text.extend_from_slice(line.as_bytes())?;
    }
    Ok(text)
}

/// The line of a bundle's value.
fn value_line(alloc: Global, bundle: &Bundle, value: &i64) -> Result<String, AllocError>
    ensures { IfOk result (λ text. string_bytes text ≡ line (value_words bundle.now value.now)) }
{
    let mut text = format!(in alloc; "value")?;
    write_bundle(&mut text, bundle)?;
    write!(text, " {value}\n")?;
    Ok(text)
}

/// The text of the links by which the bidder is irrational, each with the place of its observation.
pub(crate) fn links_text(
    alloc: Global,
    bidder: u8,
    places: &[Place],
    links: &[Link],
) -> Result<Vec<u8>, AllocError>
    requires { AllByRecursion (λ (link : LinkValue). (1 ≤ link.observation) × (link.observation ≤ length places.now)) links.now }
    ensures { IfOk result (λ text. text.items ≡ text_of
        ((codes "irrational" ∷ codes "bidder" ∷ decimal bidder ∷ codes "links" ∷ decimal (length links.now) ∷ [])
        ∷ link_lines places.now links.now)) }
{
    let count = links.len();
    let mut text = format!(in alloc; "irrational bidder {bidder} links {count}\n")?.into_bytes();
    for link in links {
        let place = places[link.observation as usize - 1];
        let line = link_line(alloc, place, link)?;
        text.extend_from_slice(line.as_bytes())?;
    }
    Ok(text)
}

/// The line of a link, whose observation was made there.
fn link_line(alloc: Global, place: Place, link: &Link) -> Result<String, AllocError>
    ensures { IfOk result (λ text. string_bytes text ≡ line (link_words place link.now)) }
{
    let clock = place.clock;
    let round = place.round;
    let mut text = format!(in alloc; "clock {clock} round {round} x")?;
    write_bundle(&mut text, &link.x)?;
    write!(text, " y")?;
    write_bundle(&mut text, &link.y)?;
    write!(text, "\n")?;
    Ok(text)
}
