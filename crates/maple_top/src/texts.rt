// What a command runs.
ghost use Rattle.std.specs.Prelude.{◌≡◌, ◌+◌, ◌<◌, ◌^◌, length};
ghost use Rattle.gen_script.specs.Policy.{gen_policy};
ghost use Rattle.maple_top.specs.Due.{IsFit};
ghost use Rattle.maple_top.specs.Running.{read_texts};
ghost use Rattle.maple_top.specs.Texts.{input_texts};

use gen_script::policy_text;
use script_text::split_at_mark;

/// The text of a policy, and a script, whose first line has this number.
#[derive(Clone, Copy)]
pub struct Texts<'a> {
    pub policy: &'a [u8],
    pub script: &'a [u8],
    pub first_line: u32,
}

/// Those of an input: the policy stands ahead of the first line that is `%%`, and the script behind it.
pub fn input_texts(input: &[u8]) -> Texts<'_>
    requires { IsFit input.now }
    ensures texts { read_texts result ≡ input_texts input.now }
    ensures numbers { result.first_line + length result.script.now < 2 ^ 32 }
{
    let (policy, script, lines) = split_at_mark(input);
    Texts {
        policy,
        script,
        first_line: lines as u32 + 1,
    }
}

/// Those of a script that a number makes.
pub fn made_texts(script: &[u8]) -> Texts<'_>
    ensures { read_texts result ≡ record { policy = gen_policy; script = script.now; first_line = 1 } }
{
    Texts {
        policy: policy_text(),
        script,
        first_line: 1,
    }
}
