// What a refusal's number stands for: words, and IBM's feedback code.
ghost use Rattle.std.specs.Prelude.{◌≡◌};
ghost use Rattle.codes.specs.Feedbacks.{feedback_of};
ghost use Rattle.words.specs.Words.{words_of, Says};

// FEEDBACK: IBM's code of a refusal, 0 for none.
#[unsafe(no_mangle)]
pub extern "C" fn gw_feedback(refusal: u32) -> u32
    ensures { result ≡ feedback_of refusal }
{
    codes::feedback_of(refusal)
}

// WORDS: a refusal in words and a zero byte behind them, at the start of the text; their number. Bytes behind stay.
#[unsafe(no_mangle)]
pub extern "C" fn gw_words(refusal: u32, text: &mut [u8; 128]) -> usize
    ensures { Says (words_of refusal) text.old result text.new }
{
    words::put_words(refusal, text)
}
