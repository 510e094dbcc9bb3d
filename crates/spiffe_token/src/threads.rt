//! Tokens are moved to other threads and shared with them.
use crate::claims::Claims;
use crate::error::JwtSvidError;
use crate::jwt_alg::JwtAlg;
use crate::jwt_svid::JwtSvid;
use crate::members::Member;

fn is_shared<T: Send + Sync>() {}

pub(crate) fn tokens_are_shared() {
    is_shared::<JwtSvid>();
    is_shared::<Claims>();
    is_shared::<JwtAlg>();
    is_shared::<Member>();
    is_shared::<JwtSvidError>();
}
