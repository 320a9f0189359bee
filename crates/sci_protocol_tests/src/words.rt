//! Contents, nodes and what packets say in words: a name, the node that is named, and the contents.

use sci_packets::{Body, Command, NodeId, Packet, from_words};
use sci_words::{Line, Reply, Stamped};
use std::alloc::{AllocError, Global};
use std::test::*;

/// A node that a state or a packet names, under a label.
pub type Link = (&'static str, Option<NodeId>);

/// Adds a label and the node's number, or `none`.
pub fn push_link(text: &mut String, label: &str, node: Option<NodeId>) -> Result<(), AllocError> {
    match node {
        Some(id) => {
            let number = id.get();
            write!(text, " {label} {number}")
        }
        None => write!(text, " {label} none"),
    }
}

/// Adds the version and the words up to the last one that isn't 0, but at least one: `@1 7`.
pub fn push_contents(text: &mut String, contents: &Stamped) -> Result<(), AllocError> {
    let version = contents.version;
    write!(text, "@{version}")?;
    let words = contents.line.words();
    let count = words.iter().rposition(|word| *word != 0).unwrap_or(0);
    for word in words.iter().take(count.saturating_add(1)) {
        write!(text, " {word}")?;
    }
    Ok(())
}

fn link(body: &Body) -> Option<Link> {
    match *body {
        Body::Roll { forward } | Body::Purged { forward } => Some(("forward", forward)),
        Body::Setback { backward } => Some(("backward", Some(backward))),
        Body::Mgone { old_head } => Some(("old", Some(old_head))),
        Body::Fdata { old_head, .. } => Some(("old", old_head)),
        _ => None,
    }
}

fn contents(body: &Body) -> Option<Stamped> {
    match *body {
        Body::Wback(contents) | Body::Mdata(contents) | Body::Cdata(contents) => Some(contents),
        Body::Fdata { contents, .. } => Some(contents),
        _ => None,
    }
}

/// What a packet says, as `purged forward 2` or `mdata @1 7`.
pub fn body_text(alloc: Global, body: &Body) -> Result<String, AllocError> {
    let mut text = String::from_str(alloc, body.command().name())?;
    if let Some((label, node)) = link(body) {
        push_link(&mut text, label, node)?;
    }
    if let Some(contents) = contents(body) {
        text.push(' ')?;
        push_contents(&mut text, &contents)?;
    }
    Ok(text)
}

/// What a packet says and its target, as `busy to 1`.
pub fn packet_text(alloc: Global, packet: &Packet) -> Result<String, AllocError> {
    let mut text = body_text(alloc, &packet.body)?;
    push_link(&mut text, "to", Some(packet.target))?;
    Ok(text)
}

/// What a request says, its target and its control number, as `purge to 1 #2`.
pub fn request_text(alloc: Global, request: &Packet) -> Result<String, AllocError> {
    let mut text = packet_text(alloc, request)?;
    let control = request.control;
    write!(text, " #{control}")?;
    Ok(text)
}

/// A reply and a version, as in a log: `7 @1`, or `- @1` of a store.
pub fn reply_text(alloc: Global, reply: Reply, version: u64) -> Result<String, AllocError> {
    match reply {
        Reply::Stored => format!(in alloc; "- @{version}"),
        Reply::Got(word) => format!(in alloc; "{word} @{version}"),
    }
}

/// The packet's body that these words say, if they are well formed.
pub fn body_of(text: &str) -> Result<Body, Fail> {
    let mut node = None;
    let mut version = None;
    let mut word = 0;
    for said in text.split_whitespace().skip(1) {
        if let Some(number) = said.strip_prefix('@') {
            version = Some(number.parse::<u64>()?);
        } else if let Ok(number) = said.parse::<u16>() {
            match version {
                Some(_) => word = u64::from(number),
                None => node = NodeId::new(number),
            }
        }
    }
    let contents = Stamped {
        line: Line::zero().with(0, word),
        version: version.unwrap_or(0),
    };
    let name = text.split_whitespace().next().ok_or("no word")?;
    Ok(body_named(name, node, &contents).ok_or("no packet says so")?)
}

/// The request about a line that a node gets from another in these words.
pub fn request_to(target: u16, source: u16, line: u8, words: &str) -> Result<Packet, Fail> {
    Ok(Packet {
        target: NodeId::new(target).ok_or("a node")?,
        source: NodeId::new(source).ok_or("a node")?,
        control: 7,
        line: u64::from(line),
        body: body_of(words)?,
    })
}

/// What the answer to a request says. An error if it is for another request.
pub fn answer_text(alloc: Global, request: &Packet, answer: &Packet) -> Result<String, Fail> {
    if *answer != request.answer(answer.body) {
        return Err(Fail::from("the answer is for another request"));
    }
    Ok(body_text(alloc, &answer.body)?)
}

/// The body of this name with this node and these contents: that of the packet with these fields.
fn body_named(name: &str, node: Option<NodeId>, contents: &Stamped) -> Option<Body> {
    let command = Command::ALL
        .into_iter()
        .find(|command| command.name() == name)?;
    let mut words = [0; 11];
    words[0] = u64::from(command.number()) * 0x1_0000_0000;
    words[1] = node.map_or(0xFFFF, |id| u64::from(id.get()));
    words[2] = contents.version;
    words[3..].copy_from_slice(&contents.line.words());
    let (packet, _) = from_words(&words).ok()?;
    Some(packet.body)
}
