//! Calls and their answers in plain words.
use histories::call::Call;
use protocol::refusal::Refusal;

// The answer of a call with the words that it handed out, the first of those that are left; what is then left.
fn print_answer<'w>(
    rt: &HostRuntime,
    call: Call,
    answer: Result<(), Refusal>,
    words: &'w [u16],
) -> anyhow::Result<&'w [u16]> {
    let count = call.words_wanted().min(words.len());
    match answer {
        Err(refusal) => {
            println!(rt; " {refusal}")?;
            Ok(words)
        }
        Ok(()) if count == 0 => {
            println!(rt; " done")?;
            Ok(words)
        }
        Ok(()) => {
            let (handed, left) = words.split_at(count);
            for word in handed {
                print!(rt; " {word}")?;
            }
            println!(rt; "")?;
            Ok(left)
        }
    }
}

// A line for each call, with its answer or its words.
pub fn print_calls(
    rt: &HostRuntime,
    calls: &[Call],
    answers: &[Result<(), Refusal>],
    words: &[u16],
) -> anyhow::Result<()> {
    let mut left = words;
    for (call, answer) in calls.iter().zip(answers.iter()) {
        print!(rt; "{call}:")?;
        left = print_answer(rt, *call, *answer, left)?;
    }
    Ok(())
}
