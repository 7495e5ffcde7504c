// Making model files.
use std::alloc::{AllocError, Global};

// The parts of a file, with no gaps.
#[derive(Drop)]
pub struct Parts {
    pub events: u8,
    pub masks: Vec<u64>,
    pub rows: Vec<u64>,
    pub bodies: Vec<u16>,
}

impl Parts {
    pub fn new(heap: Global, events: u8) -> Parts {
        Parts {
            events,
            masks: Vec::new(heap),
            rows: Vec::new(heap),
            bodies: Vec::new(heap),
        }
    }

    // One row more, from its fields.
    pub fn row(&mut self, kind: u8, argument: u8, left: u16, right: u16) -> Result<(), AllocError> {
        let [a, b] = left.to_be_bytes();
        let [c, d] = right.to_be_bytes();
        self.rows
            .push(u64::from_be_bytes([kind, argument, a, b, c, d, 0, 0]))?;
        Ok(())
    }

    // STOP, then prefixes over earlier rows, no two alike: n rows in all.
    pub fn many_rows(&mut self, n: u16) -> Result<(), AllocError> {
        self.row(0, 0, 0, 0)?;
        for i in 1..n {
            let event = (i % 60) as u8 + 2;
            self.row(3, event, (i - 1) / 60, 0)?;
        }
        Ok(())
    }

    // STOP, then each row the external choice of the one before with itself: n rows in all, n high.
    pub fn tower(&mut self, n: u16) -> Result<(), AllocError> {
        self.row(0, 0, 0, 0)?;
        for i in 1..n {
            self.row(4, 0, i - 1, i - 1)?;
        }
        Ok(())
    }

    pub fn file(&self, heap: Global) -> Result<Vec<u8>, AllocError> {
        let mut out = Vec::new(heap);
        out.extend_from_slice(&[0, 1, self.events, 3])?;
        let mut offset = 28u32;
        for size in [
            self.masks.len().saturating_mul(8),
            self.rows.len().saturating_mul(8),
            self.bodies.len().saturating_mul(2),
        ] {
            let size = u32::try_from(size).unwrap_or(0);
            out.extend_from_slice(&offset.to_be_bytes())?;
            out.extend_from_slice(&size.to_be_bytes())?;
            offset = offset.saturating_add(size);
        }
        for mask in self.masks.as_slice() {
            out.extend_from_slice(&mask.to_be_bytes())?;
        }
        for row in self.rows.as_slice() {
            out.extend_from_slice(&row.to_be_bytes())?;
        }
        for body in self.bodies.as_slice() {
            out.extend_from_slice(&body.to_be_bytes())?;
        }
        Ok(out)
    }
}

// The file with other bytes from a place on.
pub fn patched(mut file: Vec<u8>, at: usize, bytes: &[u8]) -> Vec<u8> {
    for (x, b) in file.iter_mut().skip(at).zip(bytes) {
        *x = *b;
    }
    file
}

// The file with zeros up to a length.
pub fn padded(mut file: Vec<u8>, length: usize) -> Result<Vec<u8>, AllocError> {
    let length = file.len().max(length);
    file.resize(length, 0)?;
    Ok(file)
}
