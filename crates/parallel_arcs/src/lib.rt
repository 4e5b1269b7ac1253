// Rule 7: parallel arcs.
#![tactic(auto, using(fraction::proofs::Laws::misfit_is), unfolding(fraction::specs::Formula::added, fraction::specs::Formula::subtracted, fraction::specs::Formula::multiplied, fraction::specs::Formula::divided, fraction::specs::Formula::negated, step::specs::Outcome::only_where, step::specs::Outcome::no_flow_where, step::specs::Outcome::fits, step::specs::Back::figure, fraction::specs::Exact::is_finite, fraction::specs::Exact::is_same, crate::specs::ParallelArcs::ratio_of, crate::specs::ParallelArcs::is_times, crate::specs::ParallelArcs::high_end, crate::specs::ParallelArcs::upper_sum, crate::specs::ParallelArcs::joined, crate::specs::ParallelArcs::alike, crate::specs::ParallelArcs::low_end, crate::specs::ParallelArcs::parallel_back_by))]

ghost use Rattle.std.specs.Prelude.{◌≡◌, Ok};
ghost use Rattle.fraction.specs.Formula.{◌⊖◌, ◌⊘◌};
ghost use Rattle.parallel_arcs.specs.ParallelArcs.{ratio_of, is_times, low_bound, high_bound, high_end, upper_sum, joining as joining_by, joined, alike as alike_of, parallel_arc, parallel_back_by};
ghost use Rattle.parallel_arcs.specs.internal.Multiple.{is_passing};

use fraction::{Fraction, Worked};
use network::{ARC_PLACES, Arc, ArcUpdate, Net};
use step::{Change, Halt, Old, Outcome, Undone};

pub mod multiple;

// The common fraction: what k's multiplier a is of j's.
fn ratio(tj: Arc, tk: Arc) -> Worked
    ensures { result ≡ ratio_of tj tk }
{
    tk.a.quotient(tj.a)
}

// Whether y is exactly g times x.
fn is_times(g: Fraction, y: Fraction, x: Fraction) -> bool
    ensures { result ≡ is_times g y x }
{
    g.product(x) == Ok(y)
}

// The bounds of k that give the lower and the upper end of the image.
fn image_bounds(t: Arc, g: Fraction) -> (Fraction, Fraction)
    ensures { result ≡ (low_bound t g, high_bound t g) }
{
    if g.less(Fraction::ZERO) {
        (t.upper, t.lower)
    } else {
        (t.lower, t.upper)
    }
}

// The upper end, by the bound z of k; none where there is no bound.
fn high_end(g: Fraction, z: Fraction) -> Worked
    ensures { result ≡ high_end g z }
{
    if z.den == 0 {
        return Ok(Fraction::NO_UPPER);
    }
    z.product(g)
}

// The sum of two upper bounds; none where either has none above.
fn upper_sum(u: Fraction, v: Fraction) -> Worked
    ensures { result ≡ upper_sum u v }
{
    if u.den == 0 {
        return Ok(Fraction::NO_UPPER);
    }
    if v.den == 0 {
        return Ok(Fraction::NO_UPPER);
    }
    u.sum(v)
}

// An arc gets other bounds, and arc k is dropped.
fn joining(constant: Fraction, at: ArcUpdate, l: Fraction, u: Fraction, k: usize) -> network::Edit
    ensures { result ≡ joining_by constant at.number at.arc l u k }
{
    let arc = Arc {
        lower: l,
        upper: u,
        ..at.arc
    };
    let one = ArcUpdate { arc, ..at };
    let two = step::numbered(k, network::no_arc());
    let none = network::no_supply_update();
    network::edit_two(one, two, none, none, 0, constant)
}

// Arc k is g times arc j: j gets the sums of bounds, and k is dropped.
fn join(constant: Fraction, j: ArcUpdate, k: ArcUpdate, g: Fraction) -> Outcome
    ensures { result ≡ joined constant j.number j.arc k.number k.arc g }
{
    let tj = j.arc;
    let tk = k.arc;
    let (lz, hz) = image_bounds(tk, g);
    if tj.lower.den == 0 {
        return Err(Halt::Passes);
    }
    if lz.den == 0 {
        return Err(Halt::Passes);
    }
    let low = lz.product(g)?;
    let high = high_end(g, hz)?;
    let l = tj.lower.sum(low)?;
    let u = upper_sum(tj.upper, high)?;
    let edit = joining(constant, j, l, u, k.number);
    let old = step::old_two(0, network::no_figure(), j, k);
    Ok(Change { edit, old })
}

// The rule at arcs j and k.
pub fn alike(constant: Fraction, j: ArcUpdate, k: ArcUpdate) -> Outcome
    ensures { result ≡ alike_of constant j.number j.arc k.number k.arc }
{
    let tj = j.arc;
    let tk = k.arc;
    if tk.from != tj.from {
        return Err(Halt::Passes);
    }
    if tk.to != tj.to {
        return Err(Halt::Passes);
    }
    let g = ratio(tj, tk)?;
    if !is_times(g, tk.b, tj.b) {
        return Err(Halt::Passes);
    }
    if !is_times(g, tk.cost, tj.cost) {
        return Err(Halt::Passes);
    }
    join(constant, j, k, g)
}

fn passes(o: Outcome) -> bool
    ensures { result ≡ is_passing o }
{
    matches!(o, Err(Halt::Passes))
}

// Rule 7 at arc j: the first k > j at which it applies.
pub fn parallel_arc(net: Net, j: usize) -> Outcome
    ensures { result ≡ parallel_arc net j }
{
    let t = network::arc_at(&net, j);
    if t.from == 0 {
        return Err(Halt::Passes);
    }
    if network::MAX_ARCS <= j {
        return Err(Halt::Passes);
    }
    // by number, from j on: the step names k, and counting and skipping would be no plainer
    for k in j + 1..ARC_PLACES {
        let one = ArcUpdate { number: j, arc: t };
        let arc = network::arc_at(&net, k);
        let o = alike(net.constant, one, ArcUpdate { number: k, arc });
        if !passes(o) {
            return o;
        }
    }
    Err(Halt::Passes)
}

// Its way back, where the kept arc has this flow.
pub fn parallel_back(old: Old, flow: Fraction) -> Undone
    ensures { result ≡ parallel_back_by old flow }
{
    let one = old.one;
    let two = old.two;
    let tj = one.arc;
    let tk = two.arc;
    let g = ratio(tj, tk)?;
    let (lz, _) = image_bounds(tk, g);
    let low = lz.product(g)?;
    let rest = flow.difference(low)?;
    let x = step::smaller(tj.upper, rest);
    let y = far_flow(flow, x, g)?;
    Ok(step::two_flows(two.number, y, one.number, x))
}

// The flow of k, where j takes x.
fn far_flow(flow: Fraction, x: Fraction, g: Fraction) -> Worked
    ensures { result ≡ ((Ok flow ⊖ Ok x) ⊘ Ok g) }
{
    flow.difference(x)?.quotient(g)
}
