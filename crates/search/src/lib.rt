// The reduction of a network: the search for the next step, and steps until none applies.
#![tactic(auto)]

ghost use Rattle.std.specs.Prelude.{◌≡◌, List, ◌+◌, ◌≤◌, length};
ghost use Rattle.network.specs.declared.Arc.{Arc};
ghost use Rattle.network.specs.Limits.{max_arcs, max_steps};
ghost use Rattle.network.specs.ArcList.{joined, net_in, replaced_all};
ghost use Rattle.search.specs.Search.{refusal_of, Searched};
ghost use Rattle.search.specs.internal.Progress.{begun, moved, ended, Ready, Finished};
ghost use Rattle.rules.specs.Table.{reduced};
ghost use Rattle.step_log.specs.Log.{with_step};
ghost use Rattle.costly_arc.specs.Seen.{nothing_seen};

use costly_arc::Seen;
use network::{Arc, Edit, Nodes};
use records::refusal::Refusal;
use scan::Working;
use step::{Next, Step};

mod scan;

// What shows that there is no flow: a rule, at a place (numbers, as in `step::Step`).
#[derive(Clone, Copy, Debug, PartialEq, Eq)]
pub struct Contradiction {
    pub rule: usize,
    pub place: usize,
}

// A run at its end: what is left beside the arcs, how many steps were taken, and a contradiction, or none where no rule applies.
#[derive(Clone, Copy)]
pub struct Ran {
    pub nodes: Nodes,
    pub steps: usize,
    pub contradiction: Option<Contradiction>,
}

// A run under way, beside its arcs and its log. Log and list stay two parameters, lent by the entries' callers (01): the search reads
// the list alone, a step writes both, and the way back (`postsolve`) reads the log and writes the list, so that a struct of both
// would be taken apart at each use.
#[derive(Clone, Copy)]
struct Progress {
    nodes: Nodes,
    steps: usize,
    seen: Seen,
}

// Before the first step.
fn start(nodes: Nodes) -> Progress
    ensures { result ≡ begun nodes }
{
    Progress {
        nodes,
        steps: 0,
        seen: costly_arc::unseen(),
    }
}

// The time of the next step.
fn time(at: Progress) -> u8
    requires { at.steps ≤ max_steps }
    ensures { result ≡ at.steps + 1 }
{
    (at.steps + 1) as u8
}

// The next step taken in the list and written into the log.
fn take(at: Progress, seen: Seen, step: Step, log: &mut [i32], arcs: &mut [Arc]) -> Progress
    requires { at.steps ≤ max_steps }
    ensures is { (xs : List Arc) → result ≡ moved at (joined at.nodes xs) seen step }
    ensures logged { log.new ≡ with_step log.old at.steps step }
    ensures listed { arcs.new ≡ replaced_all arcs.old step.change.edit }
{
    let edit = step.change.edit;
    network::list::put_edit(arcs, edit);
    step_log::store(log, at.steps, step);
    Progress {
        nodes: network::settle(at.nodes, edit),
        steps: at.steps + 1,
        seen: costly_arc::mark_all(seen, edit, time(at)),
    }
}

// A run at its end.
fn conclude(at: Progress, contradiction: Option<Contradiction>) -> Ran
    ensures { result ≡ ended at contradiction }
{
    Ran {
        nodes: at.nodes,
        steps: at.steps,
        contradiction,
    }
}

// Steps until none applies.
fn run_on(nodes: Nodes, log: &mut [i32], arcs: &mut [Arc]) -> Ran
    requires { Ready (net_in nodes arcs.old) nothing_seen 0 × (max_arcs ≤ length arcs.old) }
    ensures { Finished (reduced (net_in nodes arcs.old)) log.old arcs.old result log.new arcs.new }
{
    let mut at = start(nodes);
    loop {
        let net = Working {
            nodes: &at.nodes,
            arcs,
        };
        let x = net.next(at.seen, time(at));
        match x.next {
            Next::Takes(step) => at = take(at, x.seen, step, log, arcs),
            Next::Refuted(rule, place) => {
                return conclude(at, Some(Contradiction { rule, place }));
            },
            Next::Stops => return conclude(at, None),
        }
    }
}

// Room for the log and the arcs, and questions 2 to 5.
#[tactic(auto, unfolding(crate::specs::Search::refusal_of))]
fn ask(network: &[i32], log: usize, arcs: usize) -> Result<(), Refusal>
    ensures { result ≡ refusal_of network.now log arcs }
{
    Refusal::Room.unless(records::SCRATCH_WORDS <= log && network::MAX_ARCS <= arcs)?;
    records::net::ask(network)
}

// The network of a record reduced until no rule applies: its arcs into the list, the steps into the log.
// A refusal leaves both as they are.
pub fn run(network: &[i32], log: &mut [i32], arcs: &mut [Arc]) -> Result<Ran, Refusal>
    ensures { Searched network.now log.old arcs.old result log.new arcs.new }
{
    ask(network, log.len(), network::list::count(arcs))?;
    network::list::clear(arcs);
    records::net::load(arcs, network);
    let nodes = records::net::read_beside(network);
    Ok(run_on(nodes, log, arcs))
}
