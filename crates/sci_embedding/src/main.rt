//! A program that uses the machine as a library: each node adds to a word of each line, and one memory explains the result.
//! docs/EMBEDDING.md goes through it.
#![tactic(auto)]

mod counting;
mod running;

use running::ran;
use sci_words::Extent;

fn main(rt: HostRuntime) {
    let Some(extent) = Extent::new(4, 2, 1) else {
        return;
    };
    let Ok((logs, last)) = ran(rt.alloc(), extent) else {
        let _ = eprintln!(rt; "out of memory");
        return;
    };
    for line in 0..last.lines() {
        let contents = last.get(line);
        let _ = println!(rt;
            "line {line}: {} at version {}",
            contents.line.word(0),
            contents.version
        );
    }
    for node in 0..logs.nodes() {
        for entry in logs.of(node) {
            let _ = println!(rt; "node {node}: {:?} by {:?}", entry.reply, entry.op);
        }
    }
}
