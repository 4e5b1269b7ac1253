// One rule at one place of a network. Behind the first word come the rule, the place, the length of a network's record,
// and 160 words that begin with that record.
use crate::ASKED_WORDS;
use crate::words::number;
use network::{ARC_PLACES, ArcUpdate, NODE_PLACES, Net};
use records::refusal::Refusal;
use step::{Around, Halt, Outcome, Site};

// Arc j with its number, which is 0 where there is no arc.
fn numbered(net: Net, j: Option<usize>) -> ArcUpdate {
    let j = j.unwrap_or(0);
    step::numbered(j, network::arc_at(&net, j))
}

// Rule k at node i, which is in use.
fn at_node(net: Net, k: usize, i: usize) -> Outcome {
    let touches = |j: &usize| network::touches(network::arc_at(&net, *j), i);
    let degree = (1..ARC_PLACES).filter(touches).count();
    let mut touching = (1..ARC_PLACES).filter(touches);
    let near = Around {
        one: numbered(net, touching.next()),
        two: numbered(net, touching.next()),
        three: numbered(net, touching.next()),
        four: numbered(net, touching.next()),
    };
    let at = Site {
        nodes: &network::nodes_of(net),
        number: i,
        degree,
        near,
    };
    rules::tried::try_node(k, at)
}

// Rule 1 at arc j.
fn closed(net: Net, j: usize) -> Outcome {
    let t = network::arc_at(&net, j);
    let left = network::figure_at(&net.supply, t.from);
    let right = network::figure_at(&net.supply, t.to);
    closed_arc::closed_arc(net.constant, step::numbered(j, t), left, right)
}

// Rule k at place i; it passes where there is no such rule or place (a match on the rule's number, as in `rules::undo`).
fn at_place(net: Net, k: usize, i: usize) -> Outcome {
    match k {
        1 => closed(net, i),
        4 => costly_arc::costly_arc(net, i),
        7 => parallel_arcs::parallel_arc(net, i),
        _ if i < NODE_PLACES && net.here[i] => at_node(net, k, i),
        _ => Err(Halt::Passes),
    }
}

// What the rule answers; refused where a question about the record is answered by no, or it is longer.
pub(crate) fn try_rule(asked: &[i32; ASKED_WORDS]) -> Result<Outcome, Refusal> {
    let network = crate::words::network(asked)
        .get(..number(asked[3]))
        .ok_or(Refusal::Sizes)?;
    records::net::ask(network)?;
    Ok(at_place(
        records::net::read(network),
        number(asked[1]),
        number(asked[2]),
    ))
}
