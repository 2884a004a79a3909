// One walk over a plan puts its graph, in both forms: what is put is stored, counted or compared, as the sink does.
ghost use Rattle.std.specs.Prelude.{◌≡◌, Bool, ℕ, List, ◌+◌, ◌<◌, ◌≤◌, length};
ghost use Rattle.rules.specs.Base.{concat};
ghost use Rattle.rules.specs.Plan.{Node, count, depth_in};
ghost use Rattle.rules.specs.Graph.{name, graph as graph_of};
ghost use Rattle.graph_words.specs.Forms.{rule};
ghost use Rattle.graphs.specs.Entries.{lead, spot_in, begin_in, edge_in, edges_in, node_in, backward, cell_entries, row_entries, all_entries, is_some, closing_by, Ready, Labelled};

use graph_words::Form;
use put::Sink;

/// A table as its graph is put: with the columns of its nodes, whether a stand-in is given for empty titles, and the form.
#[derive(Clone, Copy)]
pub struct Walk<'a> {
    pub table: &'a [u32],
    pub column: &'a [u32; 256],
    pub given: bool,
    pub form: Form,
    ghost ready: { Ready table.now column.now },
}

/// Who puts the labels of a plan's nodes.
pub trait Labels {
    // The plan.
    ghost plan: { Self → List Node };

    // What stands in the label of node k.
    ghost label: { Self → ℕ → List ℕ };

    /// Puts what stands in the label of node k.
    fn put<S: Sink>(&self, to: &mut S, k: usize)
        requires of_plan { k < length (plan self.now) }
        requires room { S.fits (length (label self.now k)) to.old }
        ensures { S.puts (label self.now k) to.old to.new };
}

// Puts the name of node k.
fn name_of<S: Sink>(to: &mut S, walk: &Walk<'_>, k: usize)
    requires node_in_table { k < count walk.now.table.now }
    requires room { S.fits (length (name (rule walk.now.form) (spot_in walk.now.table.now k))) to.old }
    ensures { S.puts (name (rule walk.now.form) (spot_in walk.now.table.now k)) to.old to.new }
{
    graph_words::name(to, walk.table[3 * k], walk.column[k], walk.form);
}

// Puts what stands before an entry, and the name of node k, which an entry begins with.
fn begin<S: Sink>(to: &mut S, walk: &Walk<'_>, k: usize)
    requires node_in_table { k < count walk.now.table.now }
    requires room { S.fits (length (begin_in (rule walk.now.form) walk.now.table.now k)) to.old }
    ensures { S.puts (begin_in (rule walk.now.form) walk.now.table.now k) to.old to.new }
{
    to.bytes(b"\n    ");
    name_of(to, walk, k);
}

// Puts the edge from node k to node m, with what stands before an entry.
fn edge<S: Sink>(to: &mut S, walk: &Walk<'_>, k: usize, m: usize)
    requires nodes_in_table { (k < count walk.now.table.now) × (m < count walk.now.table.now) }
    requires room { S.fits (length (edge_in (rule walk.now.form) walk.now.table.now k m)) to.old }
    ensures { S.puts (edge_in (rule walk.now.form) walk.now.table.now k m) to.old to.new }
{
    begin(to, walk, k);
    to.bytes(b" -- ");
    name_of(to, walk, m);
}

// Puts the edges of node k, last child first; its children lie before node `end`.
fn edges<S: Sink>(to: &mut S, walk: &Walk<'_>, k: usize, end: usize)
    requires node_before_end { (k < end) × (end ≤ count walk.now.table.now) }
    requires room { S.fits (length (edges_in (rule walk.now.form) walk.now.table.now k (backward walk.now.given walk.now.table.now k end (depth_in walk.now.table.now k + 1)))) to.old }
    ensures { S.puts (edges_in (rule walk.now.form) walk.now.table.now k (backward walk.now.given walk.now.table.now k end (depth_in walk.now.table.now k + 1))) to.old to.new }
{
    let depth = walk.table[3 * k] + 1;
    let mut m = levels::previous_cell(walk.table, walk.given, k, end, depth);
    // Kept (no plainer): the next node is where the search back finds one, so there is no range to go over.
    while k < m {
        edge(to, walk, k, m);
        m = levels::previous_cell(walk.table, walk.given, k, m, depth);
    }
}

// Puts the entry of node k, with what stands before an entry.
fn node<S: Sink, L: Labels>(to: &mut S, walk: &Walk<'_>, labels: &L, k: usize)
    requires labelled { Labelled (rule walk.now.form) walk.now.given walk.now.table.now (L.plan labels.now) (L.label labels.now) }
    requires node_in_table { k < count walk.now.table.now }
    requires room { S.fits (length (node_in (rule walk.now.form) (L.plan labels.now) k)) to.old }
    ensures { S.puts (node_in (rule walk.now.form) (L.plan labels.now) k) to.old to.new }
{
    begin(to, walk, k);
    to.bytes(b" [label=\"");
    labels.put(to, k);
    to.bytes(b"\", ordering=\"out\"]");
}

// Puts the entries of node k, its own and its edges; its children lie before node `end`.
fn cell<S: Sink, L: Labels>(to: &mut S, walk: &Walk<'_>, labels: &L, k: usize, end: usize)
    requires labelled { Labelled (rule walk.now.form) walk.now.given walk.now.table.now (L.plan labels.now) (L.label labels.now) }
    requires node_before_end { (k < end) × (end ≤ count walk.now.table.now) }
    requires room { S.fits (length (cell_entries (rule walk.now.form) walk.now.given walk.now.table.now (L.plan labels.now) k end)) to.old }
    ensures { S.puts (cell_entries (rule walk.now.form) walk.now.given walk.now.table.now (L.plan labels.now) k end) to.old to.new }
{
    node(to, walk, labels, k);
    edges(to, walk, k, end);
}

// Puts the entries of a row, and tells whether there is one.
fn row<S: Sink, L: Labels>(to: &mut S, walk: &Walk<'_>, labels: &L, depth: u32) -> bool
    requires labelled { Labelled (rule walk.now.form) walk.now.given walk.now.table.now (L.plan labels.now) (L.label labels.now) }
    requires room { S.fits (length (concat lead (row_entries (rule walk.now.form) (L.plan labels.now) depth))) to.old }
    ensures some { result ≡ is_some (concat lead (row_entries (rule walk.now.form) (L.plan labels.now) depth)) }
    ensures put { S.puts (concat lead (row_entries (rule walk.now.form) (L.plan labels.now) depth)) to.old to.new }
{
    let nodes = walk.table.len() / 3;
    let mut k = levels::next_cell(walk.table, walk.given, nodes, 0, depth);
    let some = k < nodes;
    // Kept (no plainer): the next node is the row's next cell, so there is no range to go over.
    while k < nodes {
        let end = levels::next_cell(walk.table, walk.given, nodes, k + 1, depth);
        cell(to, walk, labels, k, end);
        k = end;
    }
    some
}

// Puts the entries of all rows, and tells whether there is one.
fn entries<S: Sink, L: Labels>(to: &mut S, walk: &Walk<'_>, labels: &L) -> bool
    requires labelled { Labelled (rule walk.now.form) walk.now.given walk.now.table.now (L.plan labels.now) (L.label labels.now) }
    requires room { S.fits (length (concat lead (all_entries (rule walk.now.form) (L.plan labels.now)))) to.old }
    ensures some { result ≡ is_some (concat lead (all_entries (rule walk.now.form) (L.plan labels.now))) }
    ensures put { S.puts (concat lead (all_entries (rule walk.now.form) (L.plan labels.now))) to.old to.new }
{
    let rows = levels::rows(walk.table, walk.table.len() / 3);
    let mut some = false;
    for i in 0..rows {
        some |= row(to, walk, labels, i);
    }
    some
}

// Puts what stands for no entry, and the last line.
#[tactic(auto, unfolding(crate::specs::Entries::closing_by, rules::specs::Base::pick, rules::specs::Base::concat, rules::specs::Lines::letters, rules::specs::Lines::bytes, rules::specs::Utf8::utf8))]
fn closing<S: Sink>(to: &mut S, some: bool)
    requires { S.fits (length (closing_by some)) to.old }
    ensures { S.puts (closing_by some) to.old to.new }
{
    if some {
        to.bytes(b"\n}");
    } else {
        to.bytes(b"\n    \n}");
    }
}

/// Puts the graph of the plan that the table shows.
pub fn put_graph<S: Sink, L: Labels>(to: &mut S, walk: &Walk<'_>, labels: &L)
    requires labelled { Labelled (rule walk.now.form) walk.now.given walk.now.table.now (L.plan labels.now) (L.label labels.now) }
    requires room { S.fits (length (graph_of (rule walk.now.form) (L.plan labels.now))) to.old }
    ensures { S.puts (graph_of (rule walk.now.form) (L.plan labels.now)) to.old to.new }
{
    to.bytes(b"graph {");
    let some = entries(to, walk, labels);
    closing(to, some);
}
