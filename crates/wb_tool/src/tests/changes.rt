//! A test of what no run comes to: no device in memory changes between the two readings of its superblock, and no image
//! file that an example could name.
use crate::opening::refuse_change;
use crate::status;
use wb_device::MemorySink;

#[test]
fn a_log_that_changed_is_told(rt: HostRuntime) {
    let mut sink = MemorySink::new(rt.alloc(), None);
    assert!(rt; refuse_change(rt.alloc(), &mut sink, 64, 56) == status::IMAGE);
    assert!(rt; sink.taken() == b"wblog: log image: changed 64 56\n".as_slice());
}
