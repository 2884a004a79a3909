// The numbers that a drawing goes by: filled in place, and handed down by reference.
ghost use Rattle.std.specs.Prelude.{◌≡◌, [], ℕ, ◌<◌, replicate};
ghost use Rattle.rules.specs.Plan.{count, plan_of};
ghost use Rattle.rules.specs.Levels.{columns_of, view as view_of};
ghost use Rattle.rules.specs.Look.{len_of};
ghost use Rattle.layout.specs.Laid.{IsLayoutOf, Measured, Laid};

use levels::ShownPlan;
use rules::Measure;

/// How many nodes, columns and rows a plan has, and the size of its canvas in cells. Of node k: its column, the lines of the title that is shown of it
/// and the length of the longest of them, both 0 where it has no cell. Of column j: its centre and where it begins. Of row i: where it begins.
#[derive(Drop)]
pub struct Layout {
    pub nodes: usize,
    pub ncols: u32,
    pub nrows: u32,
    pub width: u32,
    pub height: u32,
    pub column: [u32; 256],
    pub lines: [u32; 256],
    pub longest: [u32; 256],
    pub cx: [u32; 256],
    pub xs: [u32; 256],
    pub ys: [u32; 32],
}

impl Layout {
    ghost use Rattle.levels.specs.Handed.{plan_in};

    /// No numbers yet.
    pub fn new() -> Layout
        ensures column { result.column ≡ replicate 256 0 }
        ensures lines { result.lines ≡ replicate 256 0 }
        ensures longest { result.longest ≡ replicate 256 0 }
    {
        Layout {
            nodes: 0,
            ncols: 0,
            nrows: 0,
            width: 0,
            height: 0,
            column: [0u32; 256],
            lines: [0u32; 256],
            longest: [0u32; 256],
            cx: [0u32; 256],
            xs: [0u32; 256],
            ys: [0u32; 32],
        }
    }

    // The numbers of the nodes.
    fn measure(&mut self, shown: &ShownPlan<'_>, measure: Measure)
        requires column { self.old.column ≡ replicate 256 0 }
        requires lines { self.old.lines ≡ replicate 256 0 }
        requires longest { self.old.longest ≡ replicate 256 0 }
        ensures nodes { self.new.nodes ≡ count shown.now.plan.table.now }
        ensures columns { self.new.ncols ≡ columns_of (plan_of shown.now.plan.table.now []) }
        ensures measured { Measured (len_of measure) shown.now.plan.table.now (plan_in shown.now) self.new.column self.new.lines self.new.longest }
    {
        let nodes = shown.plan.nodes();
        self.nodes = nodes;
        self.ncols = levels::columns(shown.plan.table, nodes, &mut self.column);
        for k in 0..nodes {
            let title = tree_view::measured(shown.title(k), measure);
            self.lines[k] = title.lines;
            self.longest[k] = title.longest;
        }
    }

    // The columns, the rows and the size of the canvas, of nodes that are measured.
    fn place(&mut self, shown: &ShownPlan<'_>, measure: Measure)
        requires some_node { 0 < count shown.now.plan.table.now }
        requires nodes { self.old.nodes ≡ count shown.now.plan.table.now }
        requires columns { self.old.ncols ≡ columns_of (plan_of shown.now.plan.table.now []) }
        requires measured { Measured (len_of measure) shown.now.plan.table.now (plan_in shown.now) self.old.column self.old.lines self.old.longest }
        ensures nodes { self.new.nodes ≡ count shown.now.plan.table.now }
        ensures measured { Measured (len_of measure) shown.now.plan.table.now (plan_in shown.now) self.new.column self.new.lines self.new.longest }
        ensures laid { Laid (len_of measure) (view_of (plan_in shown.now)) self.new.ncols self.new.nrows self.new.width self.new.height self.new.cx self.new.xs self.new.ys }
    {
        self.nrows = levels::rows(shown.plan.table, self.nodes);
        let digits = tree_view::index_digits(self.nrows);
        let columns = tree_view::tree_columns(
            self.nodes,
            &self.column,
            &self.longest,
            self.ncols,
            digits + 4,
        );
        let rows = tree_view::tree_rows(shown.plan.table, self.nodes, &self.lines, self.nrows);
        self.width = tree_view::canvas_width(&columns, self.ncols);
        self.height = tree_view::canvas_height(&rows, self.nrows);
        self.cx = columns.center;
        self.xs = columns.offset;
        self.ys = rows.offset;
    }

    /// Fills a new layout with the numbers of a plan that has a node, lines being as long as the measure says.
    pub fn lay(&mut self, shown: &ShownPlan<'_>, measure: Measure)
        requires column { self.old.column ≡ replicate 256 0 }
        requires lines { self.old.lines ≡ replicate 256 0 }
        requires longest { self.old.longest ≡ replicate 256 0 }
        requires some_node { 0 < count shown.now.plan.table.now }
        ensures { IsLayoutOf (len_of measure) (plan_in shown.now) self.new.nodes self.new.ncols self.new.nrows self.new.width self.new.height self.new.column self.new.lines self.new.longest self.new.cx self.new.xs self.new.ys }
    {
        self.measure(shown, measure);
        self.place(shown, measure);
    }
}
