// Shortest distances by Bellman and Ford. Each event is a vertex, and after the last one comes the origin, which
// stands for minute 0. An edge from u to v of weight w says that v lies at most w minutes after u. So the distance
// from the origin to an event is its latest minute, the distance back is its earliest minute with the sign turned, and
// a cycle of negative weight says that some event lies before itself: then there is no schedule.
use crate::trouble::Trouble;
use network::tables::{Event, Rule, Window};
use std::alloc::{AllocError, Global};

#[derive(Clone, Copy)]
struct Edge {
    from: usize,
    to: usize,
    weight: i64,
}

impl Edge {
    fn turned(self) -> Edge {
        Edge {
            from: self.to,
            to: self.from,
            ..self
        }
    }

    // With the edge of this weight that leads back.
    fn with_back(self, weight: i64) -> [Edge; 2] {
        let back = Edge {
            weight,
            ..self.turned()
        };
        [self, back]
    }

    // Whether it shortened a distance.
    fn relax(self, distances: &mut [i64]) -> bool {
        let Some(start) = distances.get(self.from).copied() else {
            return false;
        };
        // No path that is walked here comes near the ends of an i64.
        let through = start.wrapping_add(self.weight);
        match distances.get_mut(self.to) {
            Some(distance) if through < *distance => {
                *distance = through;
                true
            }
            _ => false,
        }
    }
}

// The windows that the distances leave to the events, or None where there is a cycle of negative weight.
pub fn measure(
    heap: Global,
    events: &[Event],
    rules: &[Rule],
) -> Result<Option<Vec<Window>>, Trouble> {
    let edges = edges_of(heap, events, rules)?;
    let direct = direct_distances(heap, events, |window| i64::from(window.latest))?;
    let Some(out) = shortest(direct, edges.as_slice()) else {
        return Ok(None);
    };
    let turned = all_turned(heap, edges.as_slice())?;
    let direct = direct_distances(heap, events, |window| -i64::from(window.earliest))?;
    let Some(back) = shortest(direct, turned.as_slice()) else {
        return Ok(None);
    };
    Ok(Some(windows_of(heap, out.as_slice(), back.as_slice())?))
}

fn edges_of(heap: Global, events: &[Event], rules: &[Rule]) -> Result<Vec<Edge>, AllocError> {
    let windows = events
        .iter()
        .enumerate()
        .map(|(x, event)| window_edges(events.len(), x, event));
    windows
        .chain(rules.iter().map(rule_edges))
        .flatten()
        .collect(heap)
}

// An event's window bounds it from the origin, as a rule bounds one event from another.
fn window_edges(origin: usize, event: usize, row: &Event) -> [Edge; 2] {
    let window = row.window;
    let there = Edge {
        from: origin,
        to: event,
        weight: i64::from(window.latest),
    };
    there.with_back(-i64::from(window.earliest))
}

fn rule_edges(rule: &Rule) -> [Edge; 2] {
    let there = Edge {
        from: usize::from(rule.from),
        to: usize::from(rule.to),
        weight: i64::from(rule.gap.most),
    };
    there.with_back(-i64::from(rule.gap.least))
}

fn all_turned(heap: Global, edges: &[Edge]) -> Result<Vec<Edge>, AllocError> {
    edges.iter().map(|edge| edge.turned()).collect(heap)
}

// Each event's distance by the edge that joins it to the origin, and the origin's own distance.
fn direct_distances<F: Fn(Window) -> i64>(
    heap: Global,
    events: &[Event],
    weight: F,
) -> Result<Vec<i64>, AllocError>
    requires { (state : F) (window : _) → F.pre state window }
{
    events
        .iter()
        .map(|event| weight(event.window))
        .chain([0])
        .collect(heap)
}

// The distances of the events from the origin, or to it where all edges are turned round, from the direct ones on. A
// shortest path has fewer edges than there are vertices. So the distances stand still after at most that many passes
// less one, and if the pass after those still shortens one, there is a cycle of negative weight.
fn shortest(mut distances: Vec<i64>, edges: &[Edge]) -> Option<Vec<i64>> {
    for _ in 0..distances.len() {
        if !pass(distances.as_mut_slice(), edges) {
            // The origin is no event.
            let _ = distances.pop();
            return Some(distances);
        }
    }
    None
}

// One pass over all edges: whether it shortened a distance.
fn pass(distances: &mut [i64], edges: &[Edge]) -> bool {
    let mut shortened = false;
    for edge in edges {
        shortened |= edge.relax(distances);
    }
    shortened
}

fn windows_of(heap: Global, out: &[i64], back: &[i64]) -> Result<Vec<Window>, Trouble> {
    out.iter()
        .zip(back)
        .map(|(out, back)| window_of(*out, *back))
        .try_collect(heap)
}

fn window_of(out: i64, back: i64) -> Result<Window, Trouble> {
    Ok(Window {
        earliest: minute_of(back.saturating_neg())?,
        latest: minute_of(out)?,
    })
}

fn minute_of(distance: i64) -> Result<u32, Trouble> {
    u32::try_from(distance).map_err(|_| Trouble::Differs(
        "a distance of Bellman and Ford is no minute",
    ))
}
