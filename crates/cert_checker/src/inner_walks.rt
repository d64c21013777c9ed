//! The rules for the paths of a certificate of a periodic word, 6 and 7: the map is inner by them.
ghost use Rattle.std.specs.Prelude.{◌≡◌, ◌<◌, ◌++◌, ◌↔◌, length, IsTrue, IfOk, OnOk, IfErr};
ghost use Rattle.ideal_tri.specs.Triangulations.{edge_count};
ghost use Rattle.ideal_tri.specs.Words.{reduce};
ghost use Rattle.free_groupoid.specs.GroupoidMaps.{substitution, vertex_image};
ghost use Rattle.free_groupoid.specs.InnerAnswers.{IsSelfMap};
ghost use Rattle.cert_text.specs.Certificates.{walks_of};
ghost use Rattle.cert_checker.specs.FirstFailing.{IsFirstFailing, AllPass};
ghost use Rattle.cert_checker.specs.PeriodicRules.{HasOnePathEach, IsPathFrom, IsEquation};
ghost use Rattle.cert_checker.specs.inside.Stops.{IsStop, IsRule};

use crate::verdict::Stop;
use crate::walks::{is_reduced, is_walk, labels};
use free_groupoid::{Map, Walk};
use ideal_tri::{Label, Memory, Tri, word_laws};
use std::alloc::Global;

/// Rule 6: the path from each triangle is a reduced walk to where the map sends it.
pub(crate) fn check_paths(tri: &Tri, map: &Map, paths: &[Vec<i32>]) -> Result<(), Stop>
    requires map { IsSelfMap tri.now map.now }
    requires one_each { HasOnePathEach tri.now (walks_of paths.now) }
    ensures held { OnOk result (AllPass (length tri.now)
        (IsPathFrom tri.now (vertex_image map.now) (walks_of paths.now))) }
    ensures refused { IfErr result (IsStop (IsRule 6 (IsFirstFailing (length tri.now)
        (IsPathFrom tri.now (vertex_image map.now) (walks_of paths.now))))) }
{
    for t in 0..tri.triangles() {
        let path = &paths[t as usize];
        if !is_walk(tri, t, path, map.vertex(t)) || !is_reduced(path) {
            let place = u64::from(t);
            return Err(Stop::Refused { rule: 6, place });
        }
    }
    Ok(())
}

/// Rule 7: at each edge, across it and on is the same reduced walk as on and along its image.
pub(crate) fn check_equations(
    alloc: Global,
    tri: &Tri,
    map: &Map,
    paths: &[Vec<i32>],
) -> Result<(), Stop>
    requires map { IsSelfMap tri.now map.now }
    requires one_each { HasOnePathEach tri.now (walks_of paths.now) }
    ensures held { OnOk result (AllPass (edge_count tri.now)
        (IsEquation tri.now (substitution map.now.images) (walks_of paths.now))) }
    ensures refused { IfErr result (IsStop (IsRule 7 (IsFirstFailing (edge_count tri.now)
        (IsEquation tri.now (substitution map.now.images) (walks_of paths.now))))) }
{
    for e in 0..tri.edges() {
        if !is_equation(alloc, tri, map, paths, e)? {
            let place = u64::from(e);
            return Err(Stop::Refused { rule: 7, place });
        }
    }
    Ok(())
}

/// Whether across this edge and on is the same reduced walk as on and along its image.
fn is_equation(
    alloc: Global,
    tri: &Tri,
    map: &Map,
    paths: &[Vec<i32>],
    e: u32,
) -> Result<bool, Memory>
    requires map { IsSelfMap tri.now map.now }
    requires one_each { HasOnePathEach tri.now (walks_of paths.now) }
    requires edge { e < edge_count tri.now }
    ensures { IfOk result (λ b. IsTrue b ↔ IsEquation tri.now (substitution map.now.images)
        (walks_of paths.now) e) }
{
    word_laws();
    // there are few edges
    let _ = tri.edges();
    let x = Label::new(e as i32);
    let here = tri.place(x).0;
    let there = tri.place(x.inverse()).0;
    let across = Walk {
        start: here,
        letters: vec![in alloc; x]?,
    };
    let image = map.image(alloc, &across)?;
    let along = joined(labels(alloc, &paths[here as usize])?, &image.letters)?;
    let on = labels(alloc, &paths[there as usize])?;
    Ok(joined(across.letters, &on)? == along)
}

/// A word and another behind it, reduced.
fn joined(word: Vec<Label>, more: &[Label]) -> Result<Vec<Label>, Memory>
    ensures { IfOk result (λ v. v.items ≡ reduce (word.items ++ more.now)) }
{
    let mut letters = word;
    letters.extend_from_slice(more)?;
    let mut walk = Walk { start: 0, letters };
    walk.reduce();
    Ok(walk.letters)
}
