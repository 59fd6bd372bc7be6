//! Calls by their names, as the arguments say.

/// Makes the call that the first of two words names, as often as the second says, and prints its result. Without two words it
/// makes each of `calls`, `count` times.
pub fn run_calls<R: Print, F: FnMut(&str, u32) -> anyhow::Result<u32>>(
    rt: &R,
    words: &[String],
    calls: &[&str],
    count: u32,
    mut run: F,
) -> anyhow::Result<()>
    requires { F.IsAlwaysCallable run }
{
    match words {
        [call, count] => {
            let count: u32 = count.as_str().parse()?;
            println!(rt; "{call} {}", run(call.as_str(), count)?)?;
        }
        _ => {
            for call in calls {
                println!(rt; "{call} {}", run(call, count)?)?;
            }
        }
    }
    Ok(())
}
