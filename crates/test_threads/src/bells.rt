//! Which bells ring for workers that were called.

use unit_turns::bell::Bell;
use unit_turns::called::Called;

#[test]
fn each_called_bell_rings_once(rt: HostRuntime) {
    let bells = [Bell::new(), Bell::new(), Bell::new()];
    let mut called = Called::none();
    called.add(0);
    called.add(2);
    assert!(rt; called.has(2));
    called.ring(&bells);
    assert!(rt; bells[0].rings() == 1);
    assert!(rt; bells[1].rings() == 0);
    assert!(rt; bells[2].rings() == 1);
}
