//! Laws of JSON texts. The functions do nothing: each states a law, which is proved.
ghost use Rattle.json_texts.specs.Encoding.{ZeroIsNoJson};

/// Law: bytes that begin with a zero byte are not JSON.
pub fn zero_is_no_json()
    ensures { ZeroIsNoJson }
{}
