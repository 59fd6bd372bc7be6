//! What the checks of tests find.

use anyhow::anyhow;
use std::io;

/// The checks of the running test, and how many tests have ended.
#[derive(Drop)]
pub struct Checks {
    /// How many checks the running test has made, up to the first that failed.
    made: u32,
    /// Whether the last of these failed.
    has_failed: bool,
    /// The tests that passed.
    passed: u32,
    /// The tests that failed.
    failed: u32,
}

impl Checks {
    /// No test has ended yet.
    pub fn new() -> Checks {
        Checks {
            made: 0,
            has_failed: false,
            passed: 0,
            failed: 0,
        }
    }

    /// Checks that something is so. The test goes on in any case: an early return would have the prover follow its drops.
    pub fn that(&mut self, is_so: bool) {
        if self.has_failed {
            return;
        }
        self.made = self.made.wrapping_add(1);
        self.has_failed = !is_so;
    }

    /// Prints how many checks a test made. If it failed, standard error gets its name and the check.
    pub fn end<R: Print + Eprint>(
        &mut self,
        rt: &R,
        name: &str,
        ended: anyhow::Result<()>,
    ) -> io::Result<()> {
        let made = self.made;
        let has_failed = self.has_failed;
        self.made = 0;
        self.has_failed = false;
        match ended {
            Err(error) => {
                self.failed = self.failed.wrapping_add(1);
                eprintln!(rt; "{name}: {error}, after check {made}")
            }
            Ok(()) => {
                if has_failed {
                    self.failed = self.failed.wrapping_add(1);
                    return eprintln!(rt; "{name}: check {made} failed");
                }
                self.passed = self.passed.wrapping_add(1);
                println!(rt; "{name}, checks {made}")
            }
        }
    }

    /// Prints how many tests passed. It is an error if one failed.
    pub fn conclude<R: Print>(&self, rt: &R) -> anyhow::Result<()> {
        let (passed, failed) = (self.passed, self.failed);
        println!(rt; "{passed} tests passed, {failed} failed")?;
        if failed != 0 {
            return Err(anyhow!("a test failed"));
        }
        Ok(())
    }
}
