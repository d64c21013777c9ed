//! The certificate of a carried track.
ghost use Rattle.std.specs.Prelude.{◌≡◌, ◌<◌, ◌*◌, length, map, take, drop, IfOk};
ghost use Rattle.train_track.specs.Branches.{words_of};
ghost use Rattle.cert_text.specs.Certificates.{anchors_seen, rows_of, track_seen, walks_of};
ghost use Rattle.verdict_plan.specs.inside.Trials.{AreRows, Tells};

use crate::certificates::numbers_of;
use crate::track_growth::Growth;
use carry_map::CarryMap;
use cert_text::{Anchor, Pa};
use ideal_tri::Memory;
use std::alloc::Global;
use train_track::Track;
use transition_matrix::Matrix;

/// The certificate of a carried track behind these flips, of this power of the word.
pub(crate) fn pa(
    alloc: Global,
    track: &Track,
    c: &CarryMap,
    m: &Matrix,
    growth: Growth,
    power: u32,
    flips: Vec<u32>,
) -> Result<Pa, Memory>
    requires labels { length c.now.to ≡ length track.now.switches }
    requires walks { length c.now.connect ≡ length track.now.switches }
    requires paths { length c.now.images ≡ length track.now.branches }
    requires whole { length m.now.entries ≡ m.now.size * m.now.size }
    ensures tells { IfOk result (λ p. Tells track.now c.now m.now growth (track_seen p)) }
    ensures power { IfOk result (λ p. p.power ≡ power) }
    ensures flips { IfOk result (λ p. p.flips.items ≡ flips.items) }
{
    Ok(Pa {
        power,
        flips,
        left_out: numbers_of(alloc, track.left_out())?,
        anchors: anchors_of(alloc, track, c)?,
        images: paths_of(alloc, track, c)?,
        matrix: entries_of(alloc, m)?,
        exponent: growth.exponent,
        u: growth.bounds.u,
        low: growth.bounds.low,
        high: growth.bounds.high,
    })
}

/// Where the switches go.
fn anchors_of(alloc: Global, track: &Track, c: &CarryMap) -> Result<Vec<Anchor>, Memory>
    requires labels { length c.now.to ≡ length track.now.switches }
    requires walks { length c.now.connect ≡ length track.now.switches }
    ensures switches { IfOk result (λ v. map (λ a. a.switch) (anchors_seen v.items)
        ≡ track.now.switches) }
    ensures to { IfOk result (λ v. map (λ a. a.to) (anchors_seen v.items) ≡ c.now.to) }
    ensures connect { IfOk result (λ v. map (λ a. a.connect) (anchors_seen v.items)
        ≡ words_of c.now.connect) }
{
    let switches = track.switches();
    let mut anchors = Vec::new(alloc);
    for i in 0..switches.len() {
        anchors.push(Anchor {
            switch: switches[i].get(),
            to: c.to(i).get(),
            connect: numbers_of(alloc, &c.connect(i).letters)?,
        })?;
    }
    Ok(anchors)
}

/// The train paths.
fn paths_of(alloc: Global, track: &Track, c: &CarryMap) -> Result<Vec<Vec<i32>>, Memory>
    requires { length c.now.images ≡ length track.now.branches }
    ensures { IfOk result (λ v. walks_of v.items ≡ words_of c.now.images) }
{
    let mut paths = Vec::new(alloc);
    for j in 0..track.branches().len() {
        paths.push(numbers_of(alloc, &c.image(j).letters)?)?;
    }
    Ok(paths)
}

/// The rows of a matrix.
fn entries_of(alloc: Global, m: &Matrix) -> Result<Vec<Vec<u64>>, Memory>
    requires { length m.now.entries ≡ m.now.size * m.now.size }
    ensures { IfOk result (λ v. AreRows m.now (rows_of v.items)) }
{
    let mut rows = Vec::new(alloc);
    for i in 0..m.size() {
        rows.push(row_of(alloc, m, i)?)?;
    }
    Ok(rows)
}

/// One row.
fn row_of(alloc: Global, m: &Matrix, i: usize) -> Result<Vec<u64>, Memory>
    requires whole { length m.now.entries ≡ m.now.size * m.now.size }
    requires row { i < m.now.size }
    ensures { IfOk result (λ v. v.items
        ≡ take m.now.size (drop (i * m.now.size) m.now.entries)) }
{
    let mut row = Vec::new(alloc);
    for j in 0..m.size() {
        row.push(m.entry(i, j))?;
    }
    Ok(row)
}
