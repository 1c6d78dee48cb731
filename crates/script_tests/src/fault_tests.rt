use script::fault::Fault;
use std::test::Fail;

#[test]
fn printed(rt: HostRuntime) -> Result<(), Fail> {
    let heap = rt.alloc();
    let faults = [
        (Fault::NoMemory, "no memory"),
        (Fault::NotACommand, "no command"),
        (Fault::TooFewWords, "too few words"),
        (Fault::TooManyWords, "too many words"),
        (Fault::NotAName, "no name in text form"),
        (Fault::NotTypes, "no list of types below 128"),
    ];
    for (fault, words) in faults {
        assert_eq!(rt; fault.to_string(heap)?.as_str(), words);
    }
    Ok(())
}
