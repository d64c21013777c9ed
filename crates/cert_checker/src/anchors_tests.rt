//! Where the switches of a track go, and its train paths, on the once-punctured torus.
ghost use Rattle.std.specs.Prelude.{IfOk};
ghost use Rattle.surface_lib.specs.Surfaces.{IsSurface};
ghost use Rattle.carry_map.specs.AnchorAnswers.{IsMapOnTrack};

use crate::anchors::check_anchors;
use crate::images::check_images;
use crate::sites::Site;
use crate::verdict::Stop;
use cert_text::{Anchor, Pa};
use free_groupoid::Map;
use ideal_tri::{Label, Memory};
use std::alloc::Global;
use std::test::Fail;
use surface_lib::{Surface, builtin, read_word};
use train_track::Track;

/// The track that leaves out the corners 2 and -3, with one switch and two branches, and the map of
/// the word a b.
fn torus_site(alloc: Global, s: &Surface) -> Result<Site, Fail>
    requires { IsSurface s.now }
    ensures { IfOk result (λ site. IsMapOnTrack s.now.atlas site.track site.map) }
{
    let base = s.atlas.base();
    let word = read_word(alloc, s, "a.b")?;
    let two = Label::new(2);
    let track = Track::from_list(alloc, &s.atlas, base, &[two, two.inverse()])?;
    let mut map = Map::identity(alloc, &s.atlas, base)?;
    map.follow_path(&s.atlas, &word, 262_144)?;
    let (source, target) = (map.source(), map.target());
    if source != base {
        return Err(Fail::new("source"));
    }
    if target != base {
        return Err(Fail::new("target"));
    }
    Ok(Site { track, map })
}

/// Anchors: the switch, the label that it goes to, and the walk there.
fn anchors(alloc: Global, list: &[(i32, i32, &[i32])]) -> Result<Vec<Anchor>, Memory> {
    let mut anchors = Vec::new(alloc);
    for (switch, to, connect) in list {
        anchors.push(Anchor {
            switch: *switch,
            to: *to,
            connect: Vec::from_slice(alloc, connect)?,
        })?;
    }
    Ok(anchors)
}

/// A certificate with the anchor of the one switch, and these images.
fn with_images(alloc: Global, list: &[&[i32]]) -> Result<Pa, Memory> {
    let mut images = Vec::new(alloc);
    for letters in list {
        images.push(Vec::from_slice(alloc, letters)?)?;
    }
    Ok(Pa {
        power: 1,
        flips: Vec::new(alloc),
        left_out: Vec::from_slice(alloc, &[2, -3])?,
        anchors: anchors(alloc, &[(1, 1, &[-2, 2, -2])])?,
        images,
        matrix: Vec::new(alloc),
        exponent: 1,
        u: Vec::new(alloc),
        low: (2, 1),
        high: (3, 1),
    })
}

/// The place where a rule fails, if it does.
fn place(checked: Result<(), Stop>, number: u32) -> Result<Option<u64>, Fail> {
    match checked {
        Ok(()) => Ok(None),
        Err(Stop::Refused { rule, place }) => {
            if rule == number {
                Ok(Some(place))
            } else {
                Err(Fail::new("another rule"))
            }
        }
        Err(Stop::Memory) => Err(Fail::new("no memory")),
    }
}

/// Where the rule for anchors fails.
fn failing_anchor(
    alloc: Global,
    s: &Surface,
    site: &Site,
    list: &[(i32, i32, &[i32])],
) -> Result<Option<u64>, Fail>
    requires { IsMapOnTrack s.now.atlas site.now.track site.now.map }
{
    let anchors = anchors(alloc, list)?;
    place(check_anchors(alloc, &s.atlas, site, &anchors), 15)
}

/// Where the rule for images fails.
fn failing_image(
    alloc: Global,
    s: &Surface,
    site: &Site,
    list: &[&[i32]],
) -> Result<Option<u64>, Fail>
    requires { IsMapOnTrack s.now.atlas site.now.track site.now.map }
{
    let certificate = with_images(alloc, list)?;
    match check_anchors(alloc, &s.atlas, site, &certificate.anchors) {
        Ok(()) => place(check_images(alloc, &s.atlas, site, &certificate), 16),
        Err(_) => Err(Fail::new("anchors")),
    }
}

#[test]
fn anchors_on_the_torus(rt: HostRuntime) -> Result<(), Fail> {
    let alloc = rt.alloc();
    let s = builtin(alloc, "S_1_1")?;
    let site = torus_site(alloc, &s)?;
    let way: &[i32] = &[-2, 2, -2];
    let cases: [(&[(i32, i32, &[i32])], Option<u64>); 10] = [
        (&[(1, 1, way)], None),
        // none at all, and one too many
        (&[], Some(0)),
        (&[(1, 1, way), (1, 1, way)], Some(1)),
        // another switch is named, and an edge that is no switch, or a number that is no label, is
        // gone to
        (&[(0, 1, way)], Some(0)),
        (&[(1, 0, way)], Some(0)),
        (&[(1, 3, way)], Some(0)),
        // walks: to another triangle, from another, not reduced, and with a number that is no label
        (&[(1, 1, &[-2, 2])], Some(0)),
        (&[(1, 1, &[2, -2, 2])], Some(0)),
        (&[(1, 1, &[-2, 1, -2, 2, -2])], Some(0)),
        (&[(1, 1, &[-2, 9, -2])], Some(0)),
    ];
    for (anchors, wanted) in cases {
        assert!(rt; failing_anchor(alloc, &s, &site, anchors)? == wanted);
    }
    Ok(())
}

#[test]
fn images_on_the_torus(rt: HostRuntime) -> Result<(), Fail> {
    let alloc = rt.alloc();
    let s = builtin(alloc, "S_1_1")?;
    let site = torus_site(alloc, &s)?;
    let first: &[i32] = &[1, -3, 1, -1, 1];
    let second: &[i32] = &[1, -3, 1, -1, 1, -3, 1];
    let cases: [(&[&[i32]], Option<u64>); 7] = [
        (&[first, second], None),
        // one lacks, and one is too many
        (&[first], Some(1)),
        (&[first, second, first], Some(2)),
        // another legal walk between the same labels, one that ends elsewhere, and no walks
        (&[&[1, -1, 1], second], Some(0)),
        (&[first, &[1, -3, 1, -1]], Some(1)),
        (&[&[], second], Some(0)),
        (&[&[1, 9, 1], second], Some(0)),
    ];
    for (images, wanted) in cases {
        assert!(rt; failing_image(alloc, &s, &site, images)? == wanted);
    }
    Ok(())
}
