// The reader: checks 3 to 8 of an upload, and the cabling of an upload that passes them.

#![tactic(auto)]

ghost use Rattle.std.specs.Prelude.{◌≡◌, ◌<◌, ◌≤◌, length, get_or, eqb, true, IfOk, IfErr};
ghost use Rattle.counting.specs.Count.{all};
ghost use Rattle.paper.specs.Table.{one_piece};
ghost use Rattle.paper.specs.Refusals.{in_range, repeats, link_refusal, table_refusal};
ghost use Rattle.table.specs.Checked.{HeaderPasses};
ghost use Rattle.table.specs.ExactlyWhen.{LinksPass};
ghost use Rattle.table.specs.Labels.{Labelled, Rewritten, EndsWithin, own_number, renamed, joined_by};
ghost use Rattle.table.specs.Told.{told, meant};

use cabling::Cabling;
use upload::Upload;

mod refusal;

pub use refusal::Refusal;

// n, m and a are in range: the bounds stand as document 01 has them, one beside another; `contains` would say only the first pair of them, and is no plainer.
fn in_range(n: usize, m: usize, a: usize) -> bool
    ensures { result ≡ in_range n m a }
{
    ((1 <= n) & (n <= 63)) & ((m <= 126) & (a <= 1024))
}

// Every node has its own number as label. Numbers below 63 or 126 are cast to bytes here and below: std has no `From` to a narrower type.
fn number_nodes(labels: &mut [u8])
    requires { length labels.old ≤ 63 }
    ensures { Rewritten own_number labels.old labels.new }
{
    for (x, label) in labels.iter_mut().enumerate() {
        *label = x as u8;
    }
}

// All nodes that have the second label get the first.
fn relabel(labels: &mut [u8], second: u8, first: u8)
    ensures { Rewritten (renamed second first) labels.old labels.new }
{
    for label in labels.iter_mut() {
        if *label == second {
            *label = first;
        }
    }
}

// All labels are node 0's.
fn all_same(labels: &[u8]) -> bool
    requires { 1 ≤ length labels.now }
    ensures { result ≡ all (length labels.now) (λ x. eqb (get_or labels.now x 0) (get_or labels.now 0 0)) }
{
    let first = labels[0];
    labels.iter().all(|&label| label == first)
}

// An upload that passes checks 3 and 4.
#[derive(Clone, Copy)]
struct Exact<'a> {
    upload: Upload<'a>,
    ghost passes: { HeaderPasses upload.bytes.now },
}

impl<'a> Exact<'a> {
    ghost use Rattle.table.specs.Exact.{table};

    // Checks 3 and 4: the length and the numbers.
    fn read(upload: &'a [u8]) -> Result<Exact<'a>, Refusal>
        ensures same { IfOk result (λ e. e.upload.bytes ≡ upload.entry) }
        ensures refused { IfErr result (λ r. meant r ≡ table_refusal upload.now) }
    {
        if upload.len() < 4 {
            return Err(Refusal::Length);
        }
        let upload = Upload { bytes: upload };
        let m = upload.links();
        let a = upload.actions();
        if !in_range(upload.nodes(), m, a) {
            return Err(Refusal::Range);
        }
        if upload.bytes.len() != 4 + 2 * m + 3 * a {
            return Err(Refusal::Length);
        }
        Ok(Exact { upload })
    }

    // Link i repeats an earlier one. With no early exit the loop is done in vectors: with `any` it takes up to a fifth longer, past the bar of docs/SPEED.md.
    fn repeats(&self, i: usize) -> bool
        requires { i < (table self.now).links }
        ensures { result ≡ repeats (table self.now) i }
    {
        let x = self.upload.end(i, false);
        let y = self.upload.end(i, true);
        let mut found = false;
        for j in 0..i {
            found |= self.upload.joins(x, y, j);
        }
        found
    }

    // Checks 5, 6 and 7 of link i.
    fn check_link(&self, i: usize) -> Result<(), Refusal>
        requires { i < (table self.now).links }
        ensures { told result ≡ link_refusal (table self.now) i }
    {
        let n = self.upload.nodes();
        let p = self.upload.end(i, false);
        let q = self.upload.end(i, true);
        let link = i as u8;
        if p >= n || q >= n {
            return Err(Refusal::NamesNoNode(link));
        }
        if p == q {
            return Err(Refusal::JoinsItself(link));
        }
        if self.repeats(i) {
            return Err(Refusal::Repeats(link));
        }
        Ok(())
    }

    // Checks 5 to 7, of each link in turn.
    fn check_links(&self) -> Result<(), Refusal>
        ensures passed { IfOk result (λ _. LinksPass (table self.now) (table self.now).links) }
        ensures refused { IfErr result (λ r. meant r ≡ table_refusal self.now.upload.bytes.now) }
    {
        for i in 0..self.upload.links() {
            self.check_link(i)?;
        }
        Ok(())
    }

    // All nodes that have the label of link i's second node get the label of its first.
    fn join_link(&self, labels: &mut [u8], i: usize)
        requires { (i < (table self.now).links) × EndsWithin (table self.now) i (length labels.old) }
        ensures { Rewritten (joined_by (table self.now) i labels.old) labels.old labels.new }
    {
        let first = labels[self.upload.end(i, false)];
        let second = labels[self.upload.end(i, true)];
        relabel(labels, second, first);
    }

    // All links in turn join their nodes' labels.
    fn join_links(&self, labels: &mut [u8])
        requires { LinksPass (table self.now) (table self.now).links × Labelled (table self.now) 0 labels.old }
        ensures { Labelled (table self.now) (table self.now).links labels.new }
    {
        for i in 0..self.upload.links() {
            self.join_link(labels, i);
        }
    }

    // Check 8, by a label for each node: those of one piece are the same.
    fn check_piece(&self) -> Result<(), Refusal>
        requires { LinksPass (table self.now) (table self.now).links }
        ensures passed { IfOk result (λ _. one_piece (table self.now) ≡ true) }
        ensures refused { IfErr result (λ r. meant r ≡ table_refusal self.now.upload.bytes.now) }
    {
        let mut labels = [0u8; 63];
        let labels = &mut labels[..self.upload.nodes()];
        number_nodes(labels);
        self.join_links(labels);
        if all_same(labels) {
            Ok(())
        } else {
            Err(Refusal::Pieces)
        }
    }
}

// Checks 3 to 8 of an upload, in the paper's order. A call of its own: in line its loops would go through memory.
#[inline(never)]
pub fn check(upload: &[u8]) -> Result<Cabling<'_>, Refusal>
    ensures told { told result ≡ table_refusal upload.now }
    ensures same { IfOk result (λ c. c.upload.bytes ≡ upload.entry) }
{
    let exact = Exact::read(upload)?;
    exact.check_links()?;
    exact.check_piece()?;
    Ok(Cabling {
        upload: exact.upload,
    })
}
