// Scripts at a limit and one past it.
use super::*;

/// A group, this many questions about it, and a grant for each of them by each of these procedures.
fn granted<R: AllocGlobal>(rt: &R, questions: u32, grants: &[&str]) -> Result<Vec<u8>, Fail> {
    let alloc = rt.alloc();
    let mut text = Vec::from_slice(alloc, b"group G = < a >\n")?;
    for number in 0..questions {
        let line = format!(in alloc; "ask q{number} : a = 1 in G\n")?;
        text.extend_from_slice(line.as_bytes())?;
    }
    for grant in grants {
        for number in 0..questions {
            let line = format!(in alloc; "grant q{number} {grant} 0\n")?;
            text.extend_from_slice(line.as_bytes())?;
        }
    }
    Ok(text)
}

#[test]
fn there_are_64_searches_by_completion(rt: HostRuntime) -> Result<(), Fail> {
    let most = granted(&rt, 64, &["rewrite"])?;
    assert!(rt; ends(&rt, most.as_slice(), &[], &[], Status::Done, b"")?);
    let more = granted(&rt, 65, &["rewrite"])?;
    let refused = refused_at(131, 11, Cause::TooMany);
    assert!(rt; ends(&rt, more.as_slice(), &[], &[], refused, b"")?);
    Ok(())
}

#[test]
fn there_are_2048_searches(rt: HostRuntime) -> Result<(), Fail> {
    let mut script = granted(&rt, 1024, &["derive", "act"])?;
    assert!(rt; ends(&rt, script.as_slice(), &[], &[], Status::Done, b"")?);
    script.extend_from_slice(b"grant q0 residue 0\n")?;
    let refused = refused_at(3074, 10, Cause::TooMany);
    assert!(rt; ends(&rt, script.as_slice(), &[], &[], refused, b"")?);
    Ok(())
}
