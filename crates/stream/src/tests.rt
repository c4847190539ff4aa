// What no contract says: how much is asked of a reader at once.
use crate::Input;
use std::io::{Read, Result};

// A reader with nothing to read, and how many bytes it was asked for at most.
#[derive(Drop)]
struct Asked {
    most: usize,
}

impl Read for Asked {
    fn read(&mut self, buf: &mut [u8]) -> Result<usize> {
        self.most = self.most.max(buf.len());
        Ok(0)
    }
}

// Of a block of more than 65,536 bytes the first 65,536 are used, and a shorter one whole.
#[test]
fn block_used(rt: HostRuntime) {
    let mut asked = Asked { most: 0 };
    let mut short = [0; 4096];
    let mut input = Input::new(&mut asked, &mut short);
    assert_eq!(rt; input.number(), None);
    assert_eq!(rt; asked.most, 4096);
    let mut long = [0; 70000];
    let mut input = Input::new(&mut asked, &mut long);
    assert_eq!(rt; input.number(), None);
    assert_eq!(rt; asked.most, 65536);
}
