//! The network of a card: a unit of flow is a column.
use crate::card::{Card, is_near};
use std::alloc::{AllocError, Global};
use tariff::Tariff;
use tariff::pe::Pe;

/// Nodes are numbered as they are made, these two first.
pub const SOURCE: usize = 0;

pub const SINK: usize = 1;

/// An edge of capacity 1.
#[derive(Clone, Copy)]
pub struct Edge {
    pub from: usize,
    pub to: usize,
    pub cost: u32,
    /// whether a unit goes over it
    pub used: bool,
}

#[derive(Drop)]
pub struct Network {
    pub edges: Vec<Edge>,
    /// the numbers of the edges at each node
    pub edges_at: Vec<Vec<usize>>,
}

/// A usable PE of a standing row, and the node that a column leaves it from.
#[derive(Clone, Copy)]
struct Exit {
    pe: Pe,
    node: usize,
}

impl Network {
    /// Each usable PE of a standing row is two nodes, joined by an edge that one column can take.
    pub fn of_card<T: Tariff>(card: &Card<T>) -> Result<Network, AllocError> {
        let mut network = Network::new(card.alloc)?;
        let mut above = None;
        for row in &card.rows {
            above = Some(network.add_row(card, *row, above)?);
        }
        if let Some(last) = above {
            for exit in &last {
                network.add_edge(exit.node, SINK, 0)?;
            }
        }
        Ok(network)
    }

    /// A source and a sink.
    fn new(alloc: Global) -> Result<Network, AllocError> {
        let mut network = Network {
            edges: Vec::new(alloc),
            edges_at: Vec::new(alloc),
        };
        network.add_node(alloc)?;
        network.add_node(alloc)?;
        Ok(network)
    }

    fn add_node(&mut self, alloc: Global) -> Result<usize, AllocError> {
        let number = self.edges_at.len();
        self.edges_at.push(Vec::new(alloc))?;
        Ok(number)
    }

    fn add_edge(&mut self, from: usize, to: usize, cost: u32) -> Result<(), AllocError> {
        let number = self.edges.len();
        self.edges.push(Edge {
            from,
            to,
            cost,
            used: false,
        })?;
        for end in [from, to] {
            if let Some(edges) = self.edges_at.get_mut(end) {
                edges.push(number)?;
            }
        }
        Ok(())
    }

    /// Adds a row below the exits of the row above it, or below the source.
    fn add_row<T: Tariff>(
        &mut self,
        card: &Card<T>,
        row: u8,
        above: Option<Vec<Exit>>,
    ) -> Result<Vec<Exit>, AllocError> {
        let mut exits = Vec::new(card.alloc);
        for pe in &card.usable_pes(row)? {
            let entry = self.add_node(card.alloc)?;
            let node = self.add_node(card.alloc)?;
            self.add_edge(entry, node, 0)?;
            match &above {
                None => self.add_edge(SOURCE, entry, card.tariff.entry(*pe))?,
                Some(above) => self.add_links(card, above, *pe, entry)?,
            }
            exits.push(Exit { pe: *pe, node })?;
        }
        Ok(exits)
    }

    /// Adds the links to a PE.
    fn add_links<T: Tariff>(
        &mut self,
        card: &Card<T>,
        above: &[Exit],
        pe: Pe,
        entry: usize,
    ) -> Result<(), AllocError> {
        for exit in above {
            if is_near(exit.pe, pe) {
                self.add_edge(exit.node, entry, card.tariff.link(exit.pe, pe))?;
            }
        }
        Ok(())
    }
}
