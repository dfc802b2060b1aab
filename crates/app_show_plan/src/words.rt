//! The words of the command line.
ghost use Rattle.std.specs.Prelude.{◌≡◌, map, option_map};
ghost use Rattle.std.specs.String.{string_bytes};
ghost use Rattle.app_show_plan.specs.Asked.{asked, asked_for, asked_in, asked_view};

use crate::script::PlanForm;

/// What the words ask for.
#[derive(Clone, Copy)]
pub struct Request<'w> {
    /// How the plans are written.
    pub form: PlanForm,
    /// The name of the script.
    pub script: &'w str,
    /// The folder of the tables over which rows are counted, where one is named.
    pub folder: Option<&'w str>,
}

/// What a script and a folder ask for. A script's name that begins as an option does is none.
fn checked_request<'w>(
    form: PlanForm,
    script: &'w str,
    folder: Option<&'w str>,
) -> Option<Request<'w>>
    ensures { option_map asked_view result
        ≡ asked_for form script.entry.now (option_map (λ f. f.now) folder.entry) }
{
    if script.as_bytes().starts_with(b"--") {
        return None;
    }
    Some(Request {
        form,
        script,
        folder,
    })
}

/// What one word or two ask for.
fn request_of(form: PlanForm, words: &[String]) -> Option<Request<'_>>
    ensures { option_map asked_view result ≡ asked_in form (map string_bytes words.entry.now) }
{
    match words {
        [script] => checked_request(form, script.as_str(), None),
        [script, folder] => checked_request(form, script.as_str(), Some(folder.as_str())),
        _ => None,
    }
}

/// What the words ask for, if they are of the form: where the first one is `--json`, the others.
pub fn read_words(words: &[String]) -> Option<Request<'_>>
    ensures { option_map asked_view result ≡ asked (map string_bytes words.entry.now) }
{
    let [first, rest @ ..] = words else {
        return None;
    };
    if first.as_str() == "--json" {
        request_of(PlanForm::Objects, rest)
    } else {
        request_of(PlanForm::Lines, words)
    }
}
