// The same faults in the memory of both makes.
use faults::{FaultRecord, Span};
use std::alloc::{AllocError, Global};

#[derive(Drop)]
pub(crate) struct Memory {
    pub(crate) records: Vec<FaultRecord>,
    pub(crate) clocks: Vec<u16>,
    pub(crate) classes: Vec<u8>,
    pub(crate) rows: Vec<u8>,
}

impl Memory {
    // A class and the wrong clocks for each fault of n clocks.
    pub(crate) fn of(
        heap: Global,
        n: usize,
        faults: &[(u8, &[u16])],
    ) -> Result<Memory, AllocError> {
        let mut memory = Memory {
            records: Vec::new(heap),
            clocks: Vec::new(heap),
            classes: Vec::new(heap),
            rows: Vec::new(heap),
        };
        for &(class, wrong) in faults {
            memory.records.push(FaultRecord {
                class,
                clocks: Span {
                    start: memory.clocks.len(),
                    len: wrong.len(),
                },
                name: Span::default(),
            })?;
            memory.clocks.extend_from_slice(wrong)?;
            memory.classes.push(class)?;
            for first in (0..n).step_by(8) {
                memory.rows.push(row_byte(wrong, first))?;
            }
        }
        Ok(memory)
    }
}

// The byte of a row for the eight clocks from this one on, the first in the highest bit.
fn row_byte(wrong: &[u16], first: usize) -> u8 {
    wrong
        .iter()
        .filter_map(|&clock| usize::from(clock).checked_sub(first))
        .filter(|&place| place < 8)
        .fold(0, |byte, place| byte | (0x80 >> place))
}
