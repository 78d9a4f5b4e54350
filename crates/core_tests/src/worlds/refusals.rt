// Why a world has no recovery, with the numbers of docs/MANUAL.md and what a user is told.

use std::test::Fail;
use world_pipes::events::EscapeError;

const REFUSALS: &[(EscapeError, u8, &str)] = &[
    (EscapeError::Idle, 24, "no way out"),
    (EscapeError::Memory, 12, "out of memory"),
];

#[test]
fn refusals_have_their_numbers_and_texts(rt: HostRuntime) -> Result<(), Fail> {
    for (error, number, text) in REFUSALS {
        let printed = format!(in rt.alloc(); "{error}")?;
        assert_eq!(rt;
            (error.number(), printed.as_str()),
            (*number, *text),
            "{error:?}"
        );
    }
    Ok(())
}
