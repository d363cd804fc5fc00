// The text of a code, found in the table of its letter: one table of all would be more than the check takes at once.
ghost use Rattle.std.specs.Prelude.{◌≡◌, map, option_map};
ghost use Rattle.code_texts.specs.CodeTexts.{code_text, text_in, status_text_of, b_text, e_text, v_text, j_text, o_text, h_text, k_text, p_text, l_text, i_text, m_text, a_text};

use crate::audits::A_CODES;
use crate::documents::{J_CODES, O_CODES};
use crate::journals::{H_CODES, K_CODES, M_CODES};
use crate::lists::{I_CODES, L_CODES, P_CODES};
use crate::replies::{B_CODES, E_CODES, V_CODES};
use crate::statuses::STATUSES;

/// What the program says of a code or an exit status, as lines: what it means and what to do. `None` where there is no
/// such code.
pub fn code_text(code: &str) -> Option<&'static str>
    ensures { option_map (λ text. text.now) result ≡ code_text code.now }
{
    let code = code.as_bytes();
    match code.first() {
        Some(b'B') => b_text(code),
        Some(b'E') => e_text(code),
        Some(b'V') => v_text(code),
        Some(b'J') => j_text(code),
        Some(b'O') => o_text(code),
        Some(b'H') => h_text(code),
        Some(b'K') => k_text(code),
        Some(b'P') => p_text(code),
        Some(b'L') => l_text(code),
        Some(b'I') => i_text(code),
        Some(b'M') => m_text(code),
        Some(b'A') => a_text(code),
        _ => status_text_of(code),
    }
}

// The text of a code in a table.
fn text_in(mut table: &[(&'static str, &'static str)], code: &[u8]) -> Option<&'static str>
    ensures { option_map (λ text. text.now) result
        ≡ text_in (map (λ row. (row.0.now, row.1.now)) table.entry.now) code.now }
{
    while let [row, rest @ ..] = table {
        if row.0.as_bytes() == code {
            return Some(row.1);
        }
        table = rest;
    }
    None
}

// The text of a code of lines.
fn b_text(code: &[u8]) -> Option<&'static str>
    ensures { option_map (λ text. text.now) result ≡ b_text code.now }
{
    text_in(&B_CODES, code)
}

// The text of a code of edits.
fn e_text(code: &[u8]) -> Option<&'static str>
    ensures { option_map (λ text. text.now) result ≡ e_text code.now }
{
    text_in(&E_CODES, code)
}

// The text of a code of questions.
fn v_text(code: &[u8]) -> Option<&'static str>
    ensures { option_map (λ text. text.now) result ≡ v_text code.now }
{
    text_in(&V_CODES, code)
}

// The text of a code of JSON.
fn j_text(code: &[u8]) -> Option<&'static str>
    ensures { option_map (λ text. text.now) result ≡ j_text code.now }
{
    text_in(&J_CODES, code)
}

// The text of a code of documents.
fn o_text(code: &[u8]) -> Option<&'static str>
    ensures { option_map (λ text. text.now) result ≡ o_text code.now }
{
    text_in(&O_CODES, code)
}

// The text of a code of journals.
fn h_text(code: &[u8]) -> Option<&'static str>
    ensures { option_map (λ text. text.now) result ≡ h_text code.now }
{
    text_in(&H_CODES, code)
}

// The text of a code of kept files.
fn k_text(code: &[u8]) -> Option<&'static str>
    ensures { option_map (λ text. text.now) result ≡ k_text code.now }
{
    text_in(&K_CODES, code)
}

// The text of a code of lists that are read.
fn p_text(code: &[u8]) -> Option<&'static str>
    ensures { option_map (λ text. text.now) result ≡ p_text code.now }
{
    text_in(&P_CODES, code)
}

// The text of a code of lists that are written.
fn l_text(code: &[u8]) -> Option<&'static str>
    ensures { option_map (λ text. text.now) result ≡ l_text code.now }
{
    text_in(&L_CODES, code)
}

// The text of a code of lists as documents.
fn i_text(code: &[u8]) -> Option<&'static str>
    ensures { option_map (λ text. text.now) result ≡ i_text code.now }
{
    text_in(&I_CODES, code)
}

// The text of a code of news.
fn m_text(code: &[u8]) -> Option<&'static str>
    ensures { option_map (λ text. text.now) result ≡ m_text code.now }
{
    text_in(&M_CODES, code)
}

// The text of a code of recorded sessions.
fn a_text(code: &[u8]) -> Option<&'static str>
    ensures { option_map (λ text. text.now) result ≡ a_text code.now }
{
    text_in(&A_CODES, code)
}

// The text of a code of exit statuses.
fn status_text_of(code: &[u8]) -> Option<&'static str>
    ensures { option_map (λ text. text.now) result ≡ status_text_of code.now }
{
    text_in(&STATUSES, code)
}
