//! The greatest flow at the least cost, by shortest augmenting paths.
use crate::network::{Edge, Network, SINK, SOURCE};
use std::alloc::{AllocError, Global};
use std::collections::VecDeque;

/// What is known of a node: the least cost to come to it, over which edge, and whether it waits to be gone on from.
#[derive(Clone, Copy)]
struct Label {
    cost: Option<i64>,
    by: Option<usize>,
    waits: bool,
}

impl Network {
    /// Sends one unit after another along a cheapest path, until no path is left.
    pub fn fill(&mut self, alloc: Global) -> Result<(), AllocError> {
        for _ in 0..self.edges.len() {
            let labels = self.labels(alloc)?;
            if !self.send(&labels) {
                break;
            }
        }
        Ok(())
    }

    /// The cheapest ways from the source: Bellman-Ford with a queue.
    fn labels(&self, alloc: Global) -> Result<Vec<Label>, AllocError> {
        let unknown = Label {
            cost: None,
            by: None,
            waits: false,
        };
        let mut labels = vec![in alloc; unknown; self.edges_at.len()]?;
        if let Some(source) = labels.get_mut(SOURCE) {
            source.cost = Some(0);
        }
        let mut queue = VecDeque::new(alloc);
        queue.push_back(SOURCE)?;
        // No node is gone on from more often than there are nodes: of the flows of its size the one so far is a cheapest, so that no
        // cycle has a negative cost.
        let nodes = self.edges_at.len();
        for _ in 0..nodes.saturating_mul(nodes) {
            let Some(node) = queue.pop_front() else {
                break;
            };
            self.go_on(node, &mut labels, &mut queue)?;
        }
        Ok(labels)
    }

    /// Lowers what can be lowered one step from a node.
    fn go_on(
        &self,
        node: usize,
        labels: &mut [Label],
        queue: &mut VecDeque<usize>,
    ) -> Result<(), AllocError> {
        let Some(cost) = labels.get_mut(node).and_then(Label::done) else {
            return Ok(());
        };
        let Some(edges) = self.edges_at.get(node) else {
            return Ok(());
        };
        for number in edges {
            if let Some(edge) = self.edges.get(*number)
                && let Some((next, step)) = edge.step_from(node)
                && let Some(label) = labels.get_mut(next)
                && label.lower(cost.saturating_add(step), *number)
            {
                queue.push_back(next)?;
            }
        }
        Ok(())
    }

    /// Sends a unit along the path to the sink, if there is one.
    fn send(&mut self, labels: &[Label]) -> bool {
        let mut node = SINK;
        for _ in labels {
            let Some(number) = labels.get(node).and_then(|label| label.by) else {
                break;
            };
            let Some(edge) = self.edges.get_mut(number) else {
                break;
            };
            edge.used = !edge.used;
            node = if edge.used { edge.from } else { edge.to };
        }
        node == SOURCE
    }
}

impl Edge {
    /// Where a unit at a node can go over this edge, and at what cost: on where it is not used, back where it is.
    fn step_from(self, node: usize) -> Option<(usize, i64)> {
        if !self.used && self.from == node {
            Some((self.to, i64::from(self.cost)))
        } else if self.used && self.to == node {
            Some((self.from, -i64::from(self.cost)))
        } else {
            None
        }
    }
}

impl Label {
    /// Lowers the label, if this way is cheaper; tells whether its node has to be put into the queue.
    fn lower(&mut self, cost: i64, by: usize) -> bool {
        if self.cost.is_some_and(|old| old <= cost) {
            return false;
        }
        self.cost = Some(cost);
        self.by = Some(by);
        let waited = self.waits;
        self.waits = true;
        !waited
    }

    /// Takes the node out of the queue, and tells its cost.
    fn done(&mut self) -> Option<i64> {
        self.waits = false;
        self.cost
    }
}
