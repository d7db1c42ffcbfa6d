// Texts that are built: counts, the order of answers, and damages. A draft has so many places and transitions; then comes a part that is right,
// and then what the sample is about. The line has all of them.
use crate::calls::{first, read, read_in};
use sample_bytes::FILL;
use sample_pnml::{put_draft, put_part};
use std::io;

// Puts a part after an offset, and answers the offset after it: where either is too large, nothing is put.
fn put(text: &mut [u8], at: usize, part: &[u8]) -> usize {
    if 20000 < at || 1000 < part.len() {
        return at;
    }
    put_part(text, at, part)
}

// Reads a draft followed by two parts, the second by this name, into a room of so many bytes, at most 1,600.
fn named(
    rt: HostRuntime,
    places: u8,
    transitions: u8,
    right: &str,
    name: &str,
    part: &[u8],
    size: usize,
) -> io::Result<()> {
    if 100 < places || 100 < transitions {
        return Ok(());
    }
    let mut text = [FILL; 12000];
    let at = put_draft(&mut text, places, transitions);
    let from = put(&mut text, at, right.as_bytes());
    let n = put(&mut text, from, part);
    let mut room = [FILL; 1600];
    print!(rt; "draft {places} {transitions} {right} ")?;
    read_in(rt, name, first(&text, n), from, &mut room, size)
}

// Reads a draft followed by two parts.
fn draft(rt: HostRuntime, places: u8, transitions: u8, right: &str, part: &str) -> io::Result<()> {
    named(rt, places, transitions, right, part, part.as_bytes(), 100)
}

// Reads a draft followed by the end of a text.
fn closed(rt: HostRuntime, places: u8, transitions: u8, size: usize) -> io::Result<()> {
    let tail: &str = "</page></net></pnml>";
    named(rt, places, transitions, "", tail, tail.as_bytes(), size)
}

// Reads a draft followed by the end of a text with a byte more.
fn overlong(rt: HostRuntime, places: u8, transitions: u8, size: usize) -> io::Result<()> {
    let tail: &str = "</page></net></pnml>x";
    named(rt, places, transitions, "", tail, tail.as_bytes(), size)
}

// Reads bytes as they are.
fn plain(rt: HostRuntime, name: &str, text: &str) -> io::Result<()> {
    let mut room = [FILL; 100];
    read(rt, name, text.as_bytes(), 0, &mut room)
}

// Too few and too many places and transitions.
fn counts(rt: HostRuntime) -> io::Result<()> {
    closed(rt, 1, 0, 1600)?;
    closed(rt, 0, 1, 1600)?;
    closed(rt, 0, 0, 1600)?;
    closed(rt, 1, 1, 1600)?;
    closed(rt, 64, 64, 1600)?;
    closed(rt, 65, 1, 1600)?;
    closed(rt, 1, 65, 1600)?;
    closed(rt, 65, 65, 1600)
}

// 13 before 1, 1 before 2, 2 before 12, and 12.
fn orders(rt: HostRuntime) -> io::Result<()> {
    overlong(rt, 65, 1, 0)?;
    overlong(rt, 1, 65, 0)?;
    closed(rt, 0, 0, 0)?;
    closed(rt, 65, 65, 0)?;
    closed(rt, 1, 0, 0)?;
    closed(rt, 1, 65, 1536)?;
    closed(rt, 1, 1, 0)?;
    closed(rt, 1, 1, 23)?;
    closed(rt, 1, 1, 24)?;
    closed(rt, 64, 64, 1535)?;
    closed(rt, 64, 64, 1536)
}

// Where a text begins and ends.
fn beginnings(rt: HostRuntime) -> io::Result<()> {
    let none: &str = "";
    plain(rt, "nothing", none)?;
    plain(rt, "a space first", " <pnml")?;
    plain(rt, "<?xml", "<?xml")?;
    draft(rt, 0, 0, none, none)?;
    named(rt, 0, 0, none, "byte 0", b"\0", 100)?;
    named(rt, 0, 0, none, "byte 0xA0", b"\xA0", 100)?;
    draft(rt, 0, 0, none, "</page></net></pnml")?;
    overlong(rt, 0, 0, 100)
}

// Marks of a place.
fn marks(rt: HostRuntime) -> io::Result<()> {
    let mark: &str = "<place id=\"p0\"><initialMarking><text>";
    draft(rt, 0, 0, mark, " 1<")?;
    draft(rt, 0, 0, mark, "1 <")?;
    draft(rt, 0, 0, mark, "2<")?;
    draft(rt, 0, 0, mark, "01<")?;
    draft(rt, 0, 0, mark, "10<")?;
    draft(rt, 0, 0, mark, "1<")
}

// Numbers of a place.
fn places(rt: HostRuntime) -> io::Result<()> {
    let none: &str = "";
    draft(rt, 0, 0, none, "<place id=\"p1\">")?;
    draft(rt, 0, 0, none, "<place id=\"p00\">")?;
    draft(rt, 0, 0, none, "<place  id=\"p0\">")?;
    draft(rt, 10, 0, none, "<place id=\"p1\">")?;
    draft(rt, 10, 0, none, "<place id=\"p11\">")?;
    draft(rt, 10, 0, none, "<place id=\"p100\">")?;
    draft(rt, 1, 1, none, "<place id=\"p1\">")?;
    draft(rt, 1, 0, none, "<transition id=\"t1\">")
}

// Actions of a transition.
fn actions(rt: HostRuntime) -> io::Result<()> {
    let action: &str = "<transition id=\"t0\"><name><text>";
    draft(rt, 1, 0, action, "65535<")?;
    draft(rt, 1, 0, action, "65536<")?;
    draft(rt, 1, 0, action, "65540<")?;
    draft(rt, 1, 0, action, "655350<")?;
    draft(rt, 1, 0, action, "00<")?;
    draft(rt, 1, 0, action, "07<")?;
    draft(rt, 1, 0, action, "<")
}

// The tag of an optional transition: after the name, with white space after it, and in a whole text.
fn tags(rt: HostRuntime) -> io::Result<()> {
    let name: &str = "<transition id=\"t0\"><name><text>7</text></name>";
    draft(
        rt,
        1,
        0,
        name,
        "<toolspecific tool=\"desk\" version=\"1\"/></transition>",
    )?;
    draft(
        rt,
        1,
        0,
        name,
        "<toolspecific tool=\"desk\" version=\"1\"/> \t</transition>",
    )?;
    let tail: &str = "</page></net></pnml>";
    let whole: &str = "<transition id=\"t0\"><name><text>7</text></name>\
        <toolspecific tool=\"desk\" version=\"1\"/></transition>";
    named(rt, 1, 0, whole, tail, tail.as_bytes(), 1600)
}

// The tag where it may not stand, or another one.
fn wrong_tags(rt: HostRuntime) -> io::Result<()> {
    let tag: &str = "<toolspecific tool=\"desk\" version=\"1\"/>";
    let name: &str = "<transition id=\"t0\"><name><text>7</text></name>";
    draft(rt, 1, 0, "<transition id=\"t0\">", tag)?;
    draft(rt, 1, 0, "<transition id=\"t0\"><name>", tag)?;
    draft(rt, 1, 0, "<transition id=\"t0\"><name><text>7</text>", tag)?;
    draft(rt, 1, 1, "", tag)?;
    draft(
        rt,
        1,
        0,
        "<transition id=\"t0\"><name><text>7</text></name><toolspecific tool=\"desk\" version=\"1\"/>",
        tag,
    )?;
    draft(
        rt,
        1,
        0,
        name,
        "<toolspecific  tool=\"desk\" version=\"1\"/>",
    )?;
    draft(
        rt,
        1,
        0,
        name,
        "<toolspecific tool=\"desk\" version=\"2\"/>",
    )?;
    draft(
        rt,
        1,
        0,
        name,
        "<toolspecific tool=\"desk\" version=\"1\" />",
    )?;
    draft(rt, 1, 0, name, "<transition id=\"t1\">")?;
    draft(rt, 1, 0, name, "<t")
}

// Arcs where there are few places and transitions.
fn arcs(rt: HostRuntime) -> io::Result<()> {
    let none: &str = "";
    let pre: &str = "<arc id=\"a0\" source=\"p0\" target=\"t0\"/>";
    draft(rt, 1, 0, none, pre)?;
    draft(
        rt,
        0,
        1,
        none,
        "<arc id=\"a0\" source=\"t0\" target=\"p0\"/>",
    )?;
    draft(
        rt,
        3,
        2,
        none,
        "<arc id=\"a1\" source=\"p0\" target=\"t0\"/>",
    )?;
    draft(
        rt,
        3,
        2,
        none,
        "<arc id=\"a0\" source=\"p7\" target=\"t0\"/>",
    )?;
    draft(
        rt,
        3,
        2,
        none,
        "<arc id=\"a0\" source=\"t0\" target=\"p3\"/>",
    )?;
    draft(
        rt,
        3,
        2,
        none,
        "<arc id=\"a0\" source=\"p0\" target=\"t12\"/>",
    )?;
    draft(
        rt,
        12,
        12,
        none,
        "<arc id=\"a0\" source=\"p12\" target=\"t0\"/>",
    )?;
    draft(
        rt,
        3,
        2,
        none,
        "<arc id=\"a0\" source=\"p0\" target=\"p1\"/>",
    )?;
    draft(rt, 1, 1, pre, "<transition id=\"t1\">")
}

// Arcs after a pre arc.
fn later_pre(rt: HostRuntime) -> io::Result<()> {
    let last: &str = "<arc id=\"a0\" source=\"p5\" target=\"t11\"/>";
    let early: &str = "<arc id=\"a0\" source=\"p5\" target=\"t3\"/>";
    draft(rt, 12, 12, last, "<arc id=\"a1\" source=\"p4\"")?;
    draft(rt, 12, 12, last, "<arc id=\"a1\" source=\"p1\"")?;
    draft(rt, 12, 12, last, "<arc id=\"a1\" source=\"p10\"")?;
    draft(
        rt,
        12,
        12,
        early,
        "<arc id=\"a1\" source=\"p5\" target=\"t3\"/>",
    )?;
    draft(
        rt,
        12,
        12,
        early,
        "<arc id=\"a1\" source=\"p4\" target=\"t3\"/>",
    )?;
    draft(
        rt,
        12,
        12,
        early,
        "<arc id=\"a1\" source=\"p4\" target=\"t1\"/>",
    )?;
    draft(
        rt,
        12,
        12,
        early,
        "<arc id=\"a1\" source=\"p4\" target=\"t11\"/>",
    )
}

// Arcs after a post arc.
fn later_post(rt: HostRuntime) -> io::Result<()> {
    let early: &str = "<arc id=\"a0\" source=\"t3\" target=\"p5\"/>";
    draft(
        rt,
        12,
        12,
        early,
        "<arc id=\"a1\" source=\"p0\" target=\"t3\"/>",
    )?;
    draft(
        rt,
        12,
        12,
        early,
        "<arc id=\"a1\" source=\"t3\" target=\"p5\"/>",
    )?;
    draft(
        rt,
        12,
        12,
        early,
        "<arc id=\"a1\" source=\"t3\" target=\"p1\"/>",
    )?;
    draft(rt, 12, 12, early, "<arc id=\"a1\" source=\"t2\"")?;
    draft(rt, 12, 12, early, "<arc id=\"a1\" source=\"t1\"")?;
    draft(
        rt,
        12,
        12,
        "<arc id=\"a0\" source=\"t11\" target=\"p5\"/>",
        "<arc id=\"a1\" source=\"p",
    )?;
    draft(
        rt,
        12,
        12,
        "<arc id=\"a0\" source=\"t11\" target=\"p11\"/>",
        "<a",
    )
}

// All of them.
pub(crate) fn print_all(rt: HostRuntime) -> io::Result<()> {
    counts(rt)?;
    orders(rt)?;
    beginnings(rt)?;
    marks(rt)?;
    places(rt)?;
    actions(rt)?;
    tags(rt)?;
    wrong_tags(rt)?;
    arcs(rt)?;
    later_pre(rt)?;
    later_post(rt)
}
