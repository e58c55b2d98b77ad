//! The causes that the node gives by itself, with the numbers of Q.713. A received cause is any octet, and goes on unchanged.

/// Return cause (Q.713, 3.12): no translation for an address of such nature.
pub const RETURN_NO_TRANSLATION_FOR_NATURE: u8 = 0x00;

/// Return cause: no translation for this specific address.
pub const RETURN_NO_TRANSLATION_FOR_ADDRESS: u8 = 0x01;

/// Return cause: subsystem failure.
pub const RETURN_SUBSYSTEM_FAILURE: u8 = 0x03;

/// Return cause: unequipped user.
pub const RETURN_UNEQUIPPED_USER: u8 = 0x04;

/// Return cause: MTP failure.
pub const RETURN_MTP_FAILURE: u8 = 0x05;

/// Return cause: unqualified.
pub const RETURN_UNQUALIFIED: u8 = 0x07;

/// Return cause: error in local processing.
pub const RETURN_LOCAL_PROCESSING: u8 = 0x09;

/// Return cause: hop counter violation.
pub const RETURN_HOP_COUNTER_VIOLATION: u8 = 0x0C;

/// Return cause: segmentation failure.
pub const RETURN_SEGMENTATION_FAILURE: u8 = 0x0E;

/// Refusal cause (Q.713, 3.15): destination address unknown.
pub const REFUSAL_ADDRESS_UNKNOWN: u8 = 0x04;

/// Refusal cause: destination inaccessible.
pub const REFUSAL_INACCESSIBLE: u8 = 0x05;

/// Refusal cause: quality of service not available, transient.
pub const REFUSAL_NOT_AVAILABLE: u8 = 0x07;

/// Refusal cause: subsystem failure.
pub const REFUSAL_SUBSYSTEM_FAILURE: u8 = 0x0A;

/// Refusal cause: expiration of the connection establishment timer.
pub const REFUSAL_ESTABLISHMENT_EXPIRED: u8 = 0x0C;

/// Refusal cause: unqualified.
pub const REFUSAL_UNQUALIFIED: u8 = 0x0F;

/// Refusal cause: hop counter violation.
pub const REFUSAL_HOP_COUNTER_VIOLATION: u8 = 0x10;

/// Refusal cause: no translation for an address of such nature.
pub const REFUSAL_NO_TRANSLATION_FOR_NATURE: u8 = 0x12;

/// Refusal cause: unequipped user.
pub const REFUSAL_UNEQUIPPED_USER: u8 = 0x13;

/// Release cause (Q.713, 3.11): inconsistent connection data.
pub const RELEASE_INCONSISTENT_DATA: u8 = 0x05;

/// Release cause: access congestion.
pub const RELEASE_ACCESS_CONGESTION: u8 = 0x07;

/// Release cause: expiration of the reset timer.
pub const RELEASE_RESET_EXPIRED: u8 = 0x0C;

/// Release cause: expiration of the receive inactivity timer.
pub const RELEASE_INACTIVITY_EXPIRED: u8 = 0x0D;

/// Release cause: unqualified.
pub const RELEASE_UNQUALIFIED: u8 = 0x0F;

/// Reset cause (Q.713, 3.13): end user originated.
pub const RESET_END_USER: u8 = 0x00;

/// Reset cause: message out of order, incorrect P(S).
pub const RESET_INCORRECT_SEND_NUMBER: u8 = 0x02;

/// Reset cause: message out of order, incorrect P(R).
pub const RESET_INCORRECT_RECEIVE_NUMBER: u8 = 0x03;

/// Reset cause: remote procedure error, message out of window.
pub const RESET_OUT_OF_WINDOW: u8 = 0x04;

/// Reset cause: remote procedure error, incorrect P(S) after (re)initialization.
pub const RESET_INCORRECT_FIRST_NUMBER: u8 = 0x05;

/// Reset cause: remote procedure error, general.
pub const RESET_REMOTE_PROCEDURE_ERROR: u8 = 0x06;

/// Error cause (Q.713, 3.14): local reference number mismatch, unassigned destination reference.
pub const ERROR_UNASSIGNED_REFERENCE: u8 = 0x00;

/// Error cause: local reference number mismatch, inconsistent source reference.
pub const ERROR_INCONSISTENT_REFERENCE: u8 = 0x01;

/// Error cause: service class mismatch.
pub const ERROR_CLASS_MISMATCH: u8 = 0x03;
