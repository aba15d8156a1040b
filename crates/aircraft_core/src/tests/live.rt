//! What an aircraft without a journal tells, entry by entry: joined, it is what the same scripts send.
ghost use Rattle.std.specs.Prelude.{◌≡◌, IfOk, length};

use super::*;

#[test]
fn scripts_are_answered_entry_by_entry(rt: HostRuntime) -> Result<(), Fail> {
    for script in SCRIPTS.iter() {
        for (link, sent) in script.sent.iter().enumerate() {
            let told = told(rt.alloc(), script, link)?;
            assert_eq!(rt; told.as_slice(), *sent);
        }
    }
    Ok(())
}

/// What the aircraft of a script tells on a link, each text ended by a newline.
fn told(alloc: Global, script: &Script, link: usize) -> Result<Vec<u8>, Fail> {
    let addresses = addresses(alloc, script)?;
    let mut craft = live(alloc, who(script)?, addresses.as_slice(), script.kept)?;
    let mut told = Vec::new(alloc);
    for came in script.came {
        let entry = entry(craft.links(), came)?;
        craft.apply(&entry);
        if link >= craft.links() {
            return Err(Fail::from("a listed link"));
        }
        if let Some(text) = craft.due(link) {
            told.extend_from_slice(text)?;
            told.push(b'\n')?;
        }
    }
    Ok(told)
}

/// An aircraft without a journal whose first sample is all zeros.
fn live(alloc: Global, who: Who, addresses: &[Address], kept: Option<u8>) -> Result<LiveCraft, Fail>
    ensures { IfOk result (λ craft. craft.setting.addresses ≡ addresses.now) }
{
    if addresses.is_empty() || addresses.len() > 64 {
        return Err(Fail::from("1 to 64 addresses"));
    }
    let kept = listed(kept, addresses.len())?;
    Ok(LiveCraft::new(alloc, who, addresses, kept, Sample::zero())?)
}

#[test]
fn a_logon_is_told_with_its_contact(rt: HostRuntime) -> Result<(), Fail> {
    let addresses = addresses(rt.alloc(), &SCRIPTS[0])?;
    let mut craft = live(rt.alloc(), who(&SCRIPTS[0])?, addresses.as_slice(), None)?;
    let contact = entry(craft.links(), &LoggedOn(0))?;
    craft.apply(&contact);
    let refused = entry(craft.links(), &Answered(0, 3))?;
    if craft.links() == 0 {
        return Err(Fail::from("a link"));
    }
    assert!(rt; craft.due(0).is_some());
    assert_eq!(rt; craft.logon(0), afn_logon::Logon::Sent);
    craft.apply(&refused);
    if craft.links() == 0 {
        return Err(Fail::from("a link"));
    }
    assert!(rt; craft.due(0).is_none());
    assert_eq!(rt; craft.logon(0), afn_logon::Logon::Rejected { code: 3 });
    assert_eq!(rt; Some(craft.address(0)), Address::new(b"AKLCDYA"));
    assert_eq!(rt; craft.registration().seven(), *b".N12345");
    Ok(())
}
