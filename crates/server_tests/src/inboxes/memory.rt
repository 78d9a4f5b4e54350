// An inbox of which memory is refused. `tools/refused-memory` lets each allocation of a test fail in
// turn; in the gate none fails.

use super::acts::fault_without_memory;

#[test]
fn an_inbox_is_whole_or_none(rt: HostRuntime) {
    assert_eq!(rt; fault_without_memory(&rt, rt.alloc()), None);
}
