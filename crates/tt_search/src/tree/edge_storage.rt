//! The edges of a node in a row: a few stand in the node itself, more in a block of their own.

ghost use Rattle.std.specs.Prelude.{◌≡◌, ◌<◌, ◌≤◌, IfOk, length, take, set, slice_index_or};
ghost use Rattle.tt_search.specs.declared.tree.edge_storage.TheConstants.{MOST_INLINE_EDGES};

use crate::tree::edges::Edge;
use std::alloc::Global;
use std::marker::Model;
use tt_sgf::NoMemory;

/// How many edges stand in the node itself. With so many it has 72 bytes, also beside a proof.
const MOST_INLINE_EDGES: usize = 11;

/// So many edges of the array, or a block of them.
#[derive(Drop)]
enum EdgeStorage {
    Short(u8, [Edge; MOST_INLINE_EDGES]),
    Long(Box<Vec<Edge>>),
}

/// Edges in a row, which never becomes longer or shorter.
#[derive(Drop)]
pub(crate) struct Edges {
    form: EdgeStorage,
}

impl Model for Edges {
    ghost use Rattle.std.specs.Prelude.{List};
    ghost use Rattle.tt_search.specs.declared.tree.edges.Edge.{Edge};

    ghost Value = { List Edge };

    ghost use Rattle.tt_search.specs.inside.EdgeStorage.{edges_of, AreWithin};

    ghost view = { λ r. edges_of r.form };

    ghost invariant = { λ r. AreWithin r.form };
}

/// So many edges in an array.
fn inline_edges_of(edges: &[Edge]) -> [Edge; MOST_INLINE_EDGES]
    requires { length edges.now ≤ MOST_INLINE_EDGES }
    ensures { take (length edges.now) result ≡ edges.now }
{
    let mut short = [Edge::default(); MOST_INLINE_EDGES];
    short[..edges.len()].copy_from_slice(edges);
    short
}

impl Edges {
    /// A row of these edges. `NoMemory` where memory was refused.
    pub(crate) fn of(alloc: Global, edges: &[Edge]) -> Result<Edges, NoMemory>
        ensures { IfOk result (λ row. row ≡ edges.now) }
    {
        if edges.len() <= MOST_INLINE_EDGES {
            let form = EdgeStorage::Short(edges.len() as u8, inline_edges_of(edges));
            return Ok(Edges { form });
        }
        let mut long = Vec::with_capacity(alloc, edges.len())?;
        long.extend_from_slice(edges)?;
        match Box::new(alloc, long) {
            Ok(long) => {
                let form = EdgeStorage::Long(long);
                Ok(Edges { form })
            }
            Err(_) => Err(NoMemory),
        }
    }

    /// The edges.
    pub(crate) fn as_slice(&self) -> &[Edge]
        ensures { result.now ≡ self.now }
    {
        match &self.form {
            EdgeStorage::Short(count, short) => &short[..usize::from(*count)],
            EdgeStorage::Long(long) => long.as_slice(),
        }
    }

    /// How many there are.
    pub(crate) fn len(&self) -> usize
        ensures { result ≡ length self.now }
    {
        self.as_slice().len()
    }

    /// The edge at an index.
    pub(crate) fn at(&self, index: usize) -> Edge
        requires { index < length self.now }
        ensures { result ≡ slice_index_or self.now index result }
    {
        match &self.form {
            EdgeStorage::Short(_, short) => short[index],
            EdgeStorage::Long(long) => long[index],
        }
    }

    /// Puts an edge instead of another.
    pub(crate) fn set(&mut self, index: usize, edge: Edge)
        requires { index < length self.old }
        ensures { self.new ≡ set self.old index edge }
    {
        match &mut self.form {
            EdgeStorage::Short(_, short) => short[index] = edge,
            EdgeStorage::Long(long) => long[index] = edge,
        }
    }
}
