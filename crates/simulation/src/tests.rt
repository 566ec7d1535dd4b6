//! Short scripts and what is written of them.

use super::*;
use script_text::{generated_script, script_of};
use std::test::Fail;

/// Scripts, and the texts of them. The ids are those of the bytes of 'hello' and 'abc'.
const SCRIPTS: &[(&[u8], &[u8])] = &[
    (
        b"",
        b"\
        phase a greeting\n\
        phase b greeting\n\
        pool a 0\n\
        pool b 0\n\
        drained no\n",
    ),
    (
        b"round\n",
        b"\
        phase a greeting\n\
        phase b greeting\n\
        pool a 0\n\
        pool b 0\n\
        drained no\n",
    ),
    (
        b"drain\na 68656c6c6f\nround\nab 10\n",
        b"\
        phase a waiting\n\
        phase b idle\n\
        pool a 1\n\
        9595c9df90075148eb06860365df33584b75bff782a510c6cd4883a419833d50\n\
        pool b 0\n\
        drained no\n",
    ),
    (
        b"a 68656c6c6f\nb 616263\ndrain\nround\ndrain\n",
        b"\
        a round 1 first 8 1 2\n\
        b round 1 first 8 1 1\n\
        phase a idle\n\
        phase b idle\n\
        pool a 2\n\
        9595c9df90075148eb06860365df33584b75bff782a510c6cd4883a419833d50\n\
        4f8b42c22dd3729b519ba6f68d2da7cc5b2d606d05daed5ad5128cc03e6c6358\n\
        pool b 2\n\
        4f8b42c22dd3729b519ba6f68d2da7cc5b2d606d05daed5ad5128cc03e6c6358\n\
        9595c9df90075148eb06860365df33584b75bff782a510c6cd4883a419833d50\n\
        drained yes\n",
    ),
    (
        b"drain\nround\nab 24\nab 4\na 68656c6c6f\nba 1000\nb 616263\ndrain\nround\ndrain\n",
        b"\
        a round 1 first 8 1 1\n\
        a round 2 first 8 0 1\n\
        b round 1 first 8 0 0\n\
        b round 2 first 8 1 1\n\
        phase a idle\n\
        phase b idle\n\
        pool a 2\n\
        9595c9df90075148eb06860365df33584b75bff782a510c6cd4883a419833d50\n\
        4f8b42c22dd3729b519ba6f68d2da7cc5b2d606d05daed5ad5128cc03e6c6358\n\
        pool b 2\n\
        4f8b42c22dd3729b519ba6f68d2da7cc5b2d606d05daed5ad5128cc03e6c6358\n\
        9595c9df90075148eb06860365df33584b75bff782a510c6cd4883a419833d50\n\
        drained yes\n",
    ),
];

#[test]
fn scripts_have_known_texts(rt: HostRuntime) -> Result<(), Fail> {
    let alloc = rt.alloc();
    for (script, text) in SCRIPTS {
        let events = script_of(alloc, script)?;
        let told = simulation_of(alloc, events.as_slice(), true)?;
        assert_eq!(rt; told.text.as_slice(), *text);
        assert!(rt; told.end.is_none());
    }
    Ok(())
}

#[test]
fn ids_are_left_out(rt: HostRuntime) -> Result<(), Fail> {
    let alloc = rt.alloc();
    let events = generated_script(alloc, 1)?;
    let told = simulation_of(alloc, events.as_slice(), false)?;
    assert_eq!(rt;
        told.text.as_slice(),
        b"\
        a round 1 first 8 2 1\n\
        a round 2 first 8 0 0\n\
        b round 1 first 8 1 0\n\
        b round 2 first 8 0 0\n\
        phase a idle\n\
        phase b idle\n\
        pool a 2\n\
        pool b 2\n\
        drained yes\n"
            .as_slice()
    );
    Ok(())
}
