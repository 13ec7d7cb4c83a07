ghost use Rattle.std.specs.Prelude.{◌≡◌};

use crate::line::Queue;

// A clone of a queue of numbers is that queue, and making one can't fail.
fn cloned(line: &Queue<u32, 2>) -> Queue<u32, 2>
    ensures { result ≡ line.now }
{
    match line.clone() {
        Ok(copy) => copy,
        Err(_) => unreachable(),
    }
}

#[test]
fn clones(rt: HostRuntime) {
    let mut line: Queue<u32, 2> = Queue::new(0);
    assert!(rt; line.push(7).is_ok());
    assert!(rt; line.push(8).is_ok());
    for mut copy in [cloned(&line), line.copied()] {
        assert_eq!(rt; copy.pop(), Some(7));
        assert_eq!(rt; copy.pop(), Some(8));
        assert!(rt; copy.is_empty());
    }
    // the queue that was cloned holds what it held
    assert_eq!(rt; line.len(), 2);
    assert_eq!(rt; line.first(), Some(7));
}

#[test]
fn refused(rt: HostRuntime) {
    let mut line: Queue<u32, 1> = Queue::new(0);
    assert_eq!(rt; line.pop(), None);
    assert_eq!(rt; line.replace_first(5), None);
    assert!(rt; line.is_empty());
    assert!(rt; line.push(7).is_ok());
    assert!(rt; line.push(8).is_err());
    assert_eq!(rt; line.replace_first(9), Some(7));
    assert_eq!(rt; line.pop(), Some(9));
    assert!(rt; line.is_empty());
}
