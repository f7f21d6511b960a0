//! Passes over the observations, and what each of them does to the labels.
ghost use Rattle.std.specs.List.{AllByRecursion};
ghost use Rattle.std.specs.Prelude.{◌≡◌, ◌<◌, ◌≤◌, ◌+◌, ◌*◌, ◌^◌, ℕ, List, [], ◌∷◌, length, slice_index_or};
ghost use Rattle.std.specs.Prelude.{Some, None, MatchOption, IfSome, IfOk};
ghost use Rattle.lot_base.specs.declared.limits.TheConstants.{MOST_BUNDLES};
ghost use Rattle.lot_base.specs.Goods.{box_size};
ghost use Rattle.rationale.specs.declared.limits.TheConstants.{MOST_OBSERVATIONS};
ghost use Rattle.rationale.specs.Lines.{along};
ghost use Rattle.rationale.specs.Kept.{AreLow, IsLine, IsStretch, lines_by, thin_at, thinned};
ghost use Rattle.rationale.specs.Shown.{parent_of};
ghost use Rattle.rationale.specs.Climbs.{IsAround};
ghost use Rattle.rationale.specs.Placed.{bundles_at, IsWanted, IsPlaced, IsCourse, AreBetween};
ghost use Rattle.rationale.specs.Endings.{IsPass};

use crate::climbing::{Around, climb};
use crate::labels::{Parent, least_start, lower};
use crate::lines::Line;
use crate::placing::{show_costs, show_gaps, show_places};
use crate::stretches::Stretch;
use lot_base::{Goods, NoMemory, Prices};
use std::alloc::Global;

/// A demand at the places of the box.
#[derive(Clone, Copy)]
struct Wanted<'a> {
    /// The places of its bundles.
    places: &'a [u16],
    /// 0 at each of them, and 1 at the others.
    gaps: &'a [u64],
}

/// How many stretches lower labels between two climbs of a pass.
const STRETCHES_A_CLIMB: usize = 64;

/// What a pass comes to.
#[derive(Debug, Drop)]
pub(crate) enum Passed {
    /// No label fell.
    Settled,
    /// The last place whose label fell.
    Fell(usize),
    /// The parents have a cycle.
    Contradicted(Around),
}

/// How far a pass has come.
#[derive(Clone, Copy)]
struct Course {
    /// The place of the next observation.
    next: u32,
    /// The last place whose label fell.
    fell: Option<usize>,
}

/// Lowers labels along the links of an observation; tells the last place whose label fell.
fn observe(
    goods: &Goods,
    wanted: &Wanted,
    prices: &Prices,
    number: u32,
    costs: &mut [u64],
    labels: &mut [u64],
    parents: &mut [Option<Parent>],
) -> Option<usize>
    requires wanted { IsWanted goods.now wanted.now.places.now wanted.now.gaps.now }
    requires goods { length prices.now ≡ length goods.now }
    requires low { AreLow prices.now }
    requires costs { length costs.old ≡ box_size goods.now }
    requires labels { length labels.old ≡ box_size goods.now }
    requires parents { length parents.old ≡ box_size goods.now }
    requires between { AreBetween (2 ^ 58 + 2 ^ 26) (2 ^ 60) labels.old }
    ensures costs { length costs.new ≡ box_size goods.now }
    ensures course { IsCourse goods.now (record { prices = prices.now; bundles = bundles_at goods.now wanted.now.places.now } ∷ []) number
        labels.old parents.old labels.new parents.new result }
{
    let _goods = goods.count();
    show_costs(goods, prices, costs);
    let start = least_start(labels, costs, wanted.places);
    let new = Parent {
        observation: number,
        x: wanted.places[start.which],
    };
    lower(labels, parents, costs, wanted.gaps, start.excess, new)
}

/// The later of two places that fell.
fn later(fell: Option<usize>, last: Option<usize>) -> Option<usize>
    ensures { MatchOption fell (result ≡ last) (λ y. result ≡ Some y) }
{
    match fell {
        Some(place) => Some(place),
        None => last,
    }
}

/// Lowers labels along the links of the first and the last observation of a line; tells the last place whose label fell.
fn follow_line(
    goods: &Goods,
    wanted: &Wanted,
    line: &Line,
    number: u32,
    costs: &mut [u64],
    labels: &mut [u64],
    parents: &mut [Option<Parent>],
) -> Option<usize>
    requires wanted { IsWanted goods.now wanted.now.places.now wanted.now.gaps.now }
    requires line { IsLine goods.now line.now }
    requires few { number + line.now.count ≤ MOST_OBSERVATIONS }
    requires costs { length costs.old ≡ box_size goods.now }
    requires labels { length labels.old ≡ box_size goods.now }
    requires parents { length parents.old ≡ box_size goods.now }
    requires between { AreBetween (2 ^ 58 + line.now.count * 2 ^ 26) (2 ^ 60) labels.old }
    ensures costs { length costs.new ≡ box_size goods.now }
    ensures course { IsCourse goods.now (along (thin_at (bundles_at goods.now wanted.now.places.now) line.now) line.now.count) number
        labels.old parents.old labels.new parents.new result }
{
    let fell = observe(goods, wanted, &line.first, number, costs, labels, parents);
    if line.count == 1 {
        return fell;
    }
    let last = observe(
        goods,
        wanted,
        &line.last,
        number + (line.count - 1),
        costs,
        labels,
        parents,
    );
    later(last, fell)
}

/// Lowers labels along the links of the ends of lines, the first of which begins at this place; tells how far it comes.
fn follow_lines(
    goods: &Goods,
    wanted: &Wanted,
    lines: &[Line],
    first: u32,
    costs: &mut [u64],
    labels: &mut [u64],
    parents: &mut [Option<Parent>],
) -> Course
    requires wanted { IsWanted goods.now wanted.now.places.now wanted.now.gaps.now }
    requires lines { AllByRecursion (IsLine goods.now) lines.now }
    requires few { first + length (lines_by (thin_at (bundles_at goods.now wanted.now.places.now)) lines.now) ≤ MOST_OBSERVATIONS }
    requires costs { length costs.old ≡ box_size goods.now }
    requires labels { length labels.old ≡ box_size goods.now }
    requires parents { length parents.old ≡ box_size goods.now }
    requires between { AreBetween (2 ^ 58 + length (lines_by (thin_at (bundles_at goods.now wanted.now.places.now)) lines.now) * 2 ^ 26)
        (2 ^ 60) labels.old }
    ensures costs { length costs.new ≡ box_size goods.now }
    ensures next { result.next ≡ first + length (lines_by (thin_at (bundles_at goods.now wanted.now.places.now)) lines.now) }
    ensures course { IsCourse goods.now (lines_by (thin_at (bundles_at goods.now wanted.now.places.now)) lines.now) first
        labels.old parents.old labels.new parents.new result.fell }
{
    let mut course = Course {
        next: first,
        fell: None,
    };
    for place in 0..lines.len() {
        let line = &lines[place];
        let fell = follow_line(goods, wanted, line, course.next, costs, labels, parents);
        course = Course {
            next: course.next + line.count,
            fell: later(fell, course.fell),
        };
    }
    course
}

/// Lowers labels along the links of a stretch that begins at this place; tells how far it comes.
fn follow_stretch(
    goods: &Goods,
    stretch: &Stretch,
    first: u32,
    costs: &mut [u64],
    gaps: &mut [u64],
    places: &mut [u16],
    labels: &mut [u64],
    parents: &mut [Option<Parent>],
) -> Course
    requires stretch { IsStretch goods.now stretch.now }
    requires few { first + length (lines_by (thin_at stretch.now.demand) stretch.now.lines.items) ≤ MOST_OBSERVATIONS }
    requires costs { length costs.old ≡ box_size goods.now }
    requires gaps { length gaps.old ≡ box_size goods.now }
    requires places { length places.old ≡ box_size goods.now }
    requires labels { length labels.old ≡ box_size goods.now }
    requires parents { length parents.old ≡ box_size goods.now }
    requires between { AreBetween (2 ^ 58 + length (lines_by (thin_at stretch.now.demand) stretch.now.lines.items) * 2 ^ 26)
        (2 ^ 60) labels.old }
    ensures costs { length costs.new ≡ box_size goods.now }
    ensures gaps { length gaps.new ≡ box_size goods.now }
    ensures places { length places.new ≡ box_size goods.now }
    ensures next { result.next ≡ first + length (lines_by (thin_at stretch.now.demand) stretch.now.lines.items) }
    ensures course { IsCourse goods.now (lines_by (thin_at stretch.now.demand) stretch.now.lines.items) first
        labels.old parents.old labels.new parents.new result.fell }
{
    show_places(goods, &stretch.demand, places);
    let shown = &places[..stretch.demand.len() as usize];
    show_gaps(shown, gaps);
    let wanted = Wanted {
        places: shown,
        gaps,
    };
    follow_lines(
        goods,
        &wanted,
        &stretch.lines,
        first,
        costs,
        labels,
        parents,
    )
}

/// Climbs from the last place that fell where a multiple of so many stretches has lowered labels, to find a cycle early.
fn look_for_cycle(
    alloc: Global,
    parents: &[Option<Parent>],
    fell: Option<usize>,
    lowered: usize,
) -> Result<Option<Around>, NoMemory>
    requires few { length parents.now ≤ MOST_BUNDLES }
    requires fell { IfSome fell (λ place. place < length parents.now) }
    requires inside { (y : ℕ) → IfSome (slice_index_or parents.now y None) (λ p. p.x < length parents.now) }
    ensures { IfOk result (λ r. IfSome r (λ a. IsAround (parent_of parents.now) (length parents.now) a.path.items a.first)) }
{
    match fell {
        Some(place) => {
            if lowered % STRETCHES_A_CLIMB == 0 {
                climb(alloc, parents, place as u16)
            } else {
                Ok(None)
            }
        }
        None => Ok(None),
    }
}

/// Lowers labels along the links of all stretches once, or until a cycle is found.
pub(crate) fn pass(
    alloc: Global,
    goods: &Goods,
    stretches: &[Stretch],
    costs: &mut [u64],
    gaps: &mut [u64],
    places: &mut [u16],
    labels: &mut [u64],
    parents: &mut [Option<Parent>],
) -> Result<Passed, NoMemory>
    requires stretches { AllByRecursion (IsStretch goods.now) stretches.now }
    requires few { length (thinned stretches.now) ≤ MOST_OBSERVATIONS }
    requires costs { length costs.old ≡ box_size goods.now }
    requires gaps { length gaps.old ≡ box_size goods.now }
    requires places { length places.old ≡ box_size goods.now }
    requires labels { length labels.old ≡ box_size goods.now }
    requires parents { length parents.old ≡ box_size goods.now }
    requires between { AreBetween (2 ^ 58 + length (thinned stretches.now) * 2 ^ 26) (2 ^ 60) labels.old }
    requires placed { IsPlaced goods.now (thinned stretches.now) labels.old parents.old }
    ensures costs { length costs.new ≡ box_size goods.now }
    ensures gaps { length gaps.new ≡ box_size goods.now }
    ensures places { length places.new ≡ box_size goods.now }
    ensures labels { length labels.new ≡ box_size goods.now }
    ensures parents { length parents.new ≡ box_size goods.now }
    ensures low { AreBetween 0 (2 ^ 60) labels.new }
    ensures pass { IfOk result (IsPass goods.now (thinned stretches.now) labels.old parents.old labels.new parents.new) }
{
    let _goods = goods.count();
    let mut course = Course {
        next: 0,
        fell: None,
    };
    let mut lowered: usize = 0;
    for place in 0..stretches.len() {
        let now = follow_stretch(
            goods,
            &stretches[place],
            course.next,
            costs,
            gaps,
            places,
            labels,
            parents,
        );
        course = Course {
            next: now.next,
            fell: later(now.fell, course.fell),
        };
        lowered += usize::from(now.fell.is_some());
        if let Some(around) = look_for_cycle(alloc, parents, now.fell, lowered)? {
            return Ok(Passed::Contradicted(around));
        }
    }
    match course.fell {
        Some(place) => Ok(Passed::Fell(place)),
        None => Ok(Passed::Settled),
    }
}
