// What is refused: listeners that are not served; and how each refusal is told.

use crate::clients::{listen_all, opening};
use post::Cluster;
use post::outbox::OrderError;
use run_history::{RunNaming, SeenRun};
use server::{Attendant, ServeError, serve_while};
use std::net::{Net, TcpListener, TcpStream};
use std::sync::Wait;
use std::test::Fail;
use std::thread::Threads;
use std::time::Clock;

// Returns what comes of serving at listeners of these numbers; none if they do not listen.
fn try_to_serve<R>(rt: &R, numbers: &[u8]) -> Option<Result<bool, ServeError>>
where
    R: AllocGlobal + Threads + Wait + Clock + Sync,
    R: Net<Listener = TcpListener, Stream = TcpStream>,
{
    let Ok(config) = opening(rt.alloc(), &[1]) else {
        return None;
    };
    let mut listeners = Vec::new(rt.alloc());
    let are_there = listen_all(rt, numbers, &mut listeners);
    let served = serve_while(rt, rt.alloc(), listeners.as_slice(), &config, AtOnce);
    let served = match served {
        Ok((answer, _run)) => Ok(answer),
        Err(error) => Err(error),
    };
    if are_there { Some(served) } else { None }
}

// Returns at once.
#[derive(Drop)]
struct AtOnce;

impl Attendant for AtOnce {
    type Answer = bool;

    ghost attends = { λ _ _ _ _. Unit {0} };

    fn attend<H: RunNaming + Send + Sync>(
        self,
        _cluster: &Cluster<H>,
        _seen: &mut SeenRun<H>,
    ) -> bool {
        true
    }
}

#[test]
fn numbers_of_listeners_are_refused(rt: HostRuntime) {
    for numbers in [[1, 1].as_slice(), [1, 16].as_slice(), [0, 1].as_slice()] {
        assert_eq!(rt;
            try_to_serve(&rt, numbers),
            Some(Err(ServeError::BadMembers)),
            "{numbers:?}"
        );
    }
}

// Why nodes are not served.
const SERVING: &[(ServeError, &str)] = &[
    (ServeError::BadMembers, "members or primary of the ballot"),
    (ServeError::Memory, "out of memory"),
    (ServeError::Clock, "the clock could not be read"),
    (ServeError::Threads, "too few threads could be started"),
];

#[test]
fn refusals_have_their_texts(rt: HostRuntime) -> Result<(), Fail> {
    for (error, text) in SERVING {
        let printed = format!(in rt.alloc(); "{error}")?;
        assert_eq!(rt; printed.as_str(), *text);
    }
    let printed = format!(in rt.alloc(); "{}", OrderError::Memory)?;
    assert_eq!(rt; printed.as_str(), "out of memory");
    Ok(())
}
