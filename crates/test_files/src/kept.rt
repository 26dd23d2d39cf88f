//! Rows of readers whose bytes are kept.
use crate::asked::Asked;
use crate::devices::Endless;
use fault_details::{Kept, KeptReader};
use std::io::Read;
use std::str;
use test_rows::{Answer, Pieces};

/// What a reader has kept after each of four reads with room for 8 bytes.
pub fn say_kept_reads(out: &mut Answer, asked: Asked<'_>) {
    let pieces = Pieces {
        left: asked.lines.trim_end().as_bytes(),
        size: asked.number("pieces", 1),
        failure: asked.failure(),
    };
    let mut reader = KeptReader::new(out.alloc(), pieces);
    let mut room = [0u8; 8];
    for _ in 0..4 {
        let _ = reader.read(&mut room);
        match reader.kept() {
            Kept::All(bytes) => {
                let text = str::from_utf8(bytes.as_slice()).unwrap_or("NOT UTF-8");
                write!(out, "kept {text}\n");
            }
            Kept::TooMany => out.push("too many\n"),
            Kept::NoMemory => out.refuse(),
        }
    }
}

/// How many bytes an endless reader has kept after a read with room for each line's number of bytes.
pub fn say_kept_sizes(out: &mut Answer, lines: &str) {
    let mut reader = KeptReader::new(out.alloc(), Endless);
    for line in lines.lines() {
        let size = line.parse::<usize>().unwrap_or(0);
        let Ok(mut room) = vec![in out.alloc(); 0u8; size] else {
            return out.refuse();
        };
        let _ = reader.read(room.as_mut_slice());
        match reader.kept() {
            Kept::All(bytes) => write!(out, "kept {} bytes\n", bytes.len()),
            Kept::TooMany => out.push("too many\n"),
            Kept::NoMemory => out.refuse(),
        }
    }
}
